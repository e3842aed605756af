//! Evaluates the arms of a statement, and writes their rows.
ghost use Rattle.std.specs.Prelude.{◌≡◌, ◌+◌, ◌-◌, ◌<◌, ◌≤◌, ◌^◌, [], ◌∷◌, IfOk, is_ok, length, map, true};
ghost use Rattle.xp_call.specs.Calls.{is_built};
ghost use Rattle.xp_eval.specs.Real.{first_raised};
ghost use Rattle.xp_meaning.specs.Evaluable.{all_evaluable};
ghost use Rattle.xp_tree.specs.Term.{terms};
ghost use Rattle.xp_run.specs.Answer.{arm_rows, early_parts, output_row, output_rows};
ghost use Rattle.xp_run.specs.inner.Analyses.{AreReady};
ghost use Rattle.xp_run.specs.inner.Arms.{count_after, row_text, rows_text};
ghost use Rattle.xp_run.specs.inner.Writing.{Writes};

use crate::lines;
use crate::printer::Printer;
use crate::writing::{WriteError, put_line};
use std::alloc::Global;
use xp_analyse::TypedArm;
use xp_base::{EvalError, Memory, Sink};
use xp_call::CallFault;
use xp_eval::{early_all, eval_all};
use xp_tree::Tree;
use xp_value::{Row, Value};

/// The first error that is raised before any row.
#[tactic(auto, using(crate::proofs::OutputRows::early_some, crate::proofs::OutputRows::early_pass, crate::proofs::OutputRows::early_end))]
pub fn first_early(alloc: Global, arms: &[TypedArm]) -> Result<Option<EvalError>, Memory>
    requires { AreReady arms.now }
    ensures { IfOk result (λ error. error ≡ first_raised (early_parts arms.now)) }
{
    for arm in arms {
        if let Some(error) = early_all(alloc, arm.trees.as_slice())? {
            return Ok(Some(error));
        }
    }
    Ok(None)
}

/// Writes the line of the row behind `before` of block `k`. Says whether it has values.
#[tactic(auto, using(crate::proofs::Written::writes_nothing))]
fn write_row<K: Sink>(
    alloc: Global,
    k: u64,
    trees: &[Tree],
    row: &[Value],
    before: u128,
    printer: &mut Printer,
    out: &mut K,
) -> Result<bool, WriteError>
    requires ready { all_evaluable is_built (terms trees.now) ≡ true }
    requires fits { before < 2 ^ 128 - 1 }
    ensures wrote { Writes (K.contents out.old) (K.contents out.new) (row_text k before (output_row trees.now row.now)) (K.faults out.old) (K.faults out.new) result }
    ensures valued { IfOk result (λ valued. valued ≡ is_ok (output_row trees.now row.now)) }
    ensures rises { K.faults out.old ≤ K.faults out.new }
{
    match eval_all(alloc, trees, row) {
        Ok(values) => {
            printer.rows.print(values.as_slice())?;
            put_line(printer.rows.line(), out)?;
            Ok(true)
        }
        Err(CallFault::Raised(error)) => {
            let line = lines::error(alloc, k, error.code(), before + 1)?;
            put_line(line.as_bytes(), out)?;
            Ok(false)
        }
        Err(CallFault::Memory) => Err(WriteError::Memory),
    }
}

/// Writes the output rows that the trees give over these rows, up to the first that raises. Says how
/// many there are then, unless one raised.
#[tactic(auto, using(crate::proofs::OutputRows::count_step, crate::proofs::OutputRows::count_stop, crate::proofs::OutputRows::count_end))]
fn write_over<K: Sink>(
    alloc: Global,
    k: u64,
    trees: &[Tree],
    rows: &[Row],
    before: u128,
    printer: &mut Printer,
    out: &mut K,
) -> Result<Option<u128>, WriteError>
    requires ready { all_evaluable is_built (terms trees.now) ≡ true }
    requires fits { before + length rows.now < 2 ^ 128 }
    ensures wrote { Writes (K.contents out.old) (K.contents out.new) (rows_text k before (map (output_row trees.now) rows.now)) (K.faults out.old) (K.faults out.new) result }
    ensures count { IfOk result (λ after. after ≡ count_after before (map (output_row trees.now) rows.now)) }
    ensures rises { K.faults out.old ≤ K.faults out.new }
{
    let mut done = before;
    for row in rows {
        if !write_row(alloc, k, trees, row.as_slice(), done, printer, out)? {
            return Ok(None);
        }
        done += 1;
    }
    Ok(Some(done))
}

/// Writes the output rows of an arm.
fn write_arm<K: Sink>(
    alloc: Global,
    k: u64,
    arm: &TypedArm,
    rows: &[Row],
    before: u128,
    printer: &mut Printer,
    out: &mut K,
) -> Result<Option<u128>, WriteError>
    requires ready { all_evaluable is_built (terms arm.now.trees) ≡ true }
    requires fits { before < 2 ^ 128 - 2 ^ 64 }
    ensures wrote { Writes (K.contents out.old) (K.contents out.new) (rows_text k before (arm_rows rows.now arm.now)) (K.faults out.old) (K.faults out.new) result }
    ensures count { IfOk result (λ after. after ≡ count_after before (arm_rows rows.now arm.now)) }
    ensures rises { K.faults out.old ≤ K.faults out.new }
{
    let trees = arm.trees.as_slice();
    if arm.over_rows {
        write_over(alloc, k, trees, rows, before, printer, out)
    } else {
        write_over(alloc, k, trees, &[Row::new(alloc)], before, printer, out)
    }
}

/// Writes the output rows of all arms, up to the first that raises. Says how many there are, unless
/// one raised. Arms and rows are counted by 64 bits each, and so output rows by 128.
#[tactic(auto, using(crate::proofs::OutputRows::arms_count, crate::proofs::OutputRows::arms_raised, crate::proofs::OutputRows::arms_all))]
pub fn write_rows<K: Sink>(
    alloc: Global,
    k: u64,
    arms: &[TypedArm],
    rows: &[Row],
    printer: &mut Printer,
    out: &mut K,
) -> Result<Option<u128>, WriteError>
    requires { AreReady arms.now }
    ensures wrote { Writes (K.contents out.old) (K.contents out.new) (rows_text k 0 (output_rows rows.now arms.now)) (K.faults out.old) (K.faults out.new) result }
    ensures count { IfOk result (λ after. after ≡ count_after 0 (output_rows rows.now arms.now)) }
    ensures rises { K.faults out.old ≤ K.faults out.new }
{
    let mut done: u128 = 0;
    for arm in arms {
        match write_arm(alloc, k, arm, rows, done, printer, out)? {
            Some(after) => done = after,
            None => return Ok(None),
        }
    }
    Ok(Some(done))
}
