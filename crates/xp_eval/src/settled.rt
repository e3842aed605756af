//! What the value of a constant tree decides.
ghost use Rattle.std.specs.Prelude.{◌≡◌, IfOk, true};
ghost use Rattle.xp_call.specs.Calls.{is_built};
ghost use Rattle.xp_meaning.specs.Early.{settles};
ghost use Rattle.xp_meaning.specs.Evaluable.{is_evaluable};
ghost use Rattle.xp_eval.specs.Real.{real};
ghost use Rattle.xp_eval.specs.inner.Choices.{holds};

use crate::columns::is_null;
use crate::truths::{is_false, is_true};
use crate::walk::eval;
use std::alloc::Global;
use xp_base::Memory;
use xp_call::CallFault;
use xp_tree::Tree;
use xp_value::Value;

/// What is asked of a value.
#[derive(Clone, Copy)]
pub enum Test {
    IsFalse,
    IsTrue,
    IsntTrue,
    IsntNull,
}

fn holds(test: Test, value: &Value) -> bool
    ensures { result ≡ holds test value.now }
{
    match test {
        Test::IsFalse => is_false(value),
        Test::IsTrue => is_true(value),
        Test::IsntTrue => !is_true(value),
        Test::IsntNull => !is_null(value),
    }
}

/// Whether the tree is constant, and its value so.
#[tactic(auto, using(crate::proofs::Tested::of_value, crate::proofs::Tested::of_error))]
pub fn settles(alloc: Global, t: &Tree, test: Test) -> Result<bool, Memory>
    requires { is_evaluable is_built t.now ≡ true }
    ensures { IfOk result (λ b. b ≡ settles real (holds test) t.now) }
{
    if !t.is_const() {
        return Ok(false);
    }
    match eval(alloc, t, &[]) {
        Ok(value) => Ok(holds(test, &value)),
        Err(CallFault::Raised(_)) => Ok(false),
        Err(CallFault::Memory) => Err(Memory),
    }
}
