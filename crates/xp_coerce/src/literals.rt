//! Literals, which get a type where one is wanted (manual 10.1).
ghost use Rattle.std.specs.Prelude.{◌≡◌, ◌≤◌, IfOk, length, true};
ghost use Rattle.xp_base.specs.OrMemory.{OrMemory};
ghost use Rattle.xp_value.specs.Representation.{has, plain};
ghost use Rattle.xp_value.specs.declared.value.Rep.TheVariants as rep;
ghost use Rattle.xp_value.specs.declared.value.Value.TheVariants.{Null, Opaque};
ghost use Rattle.xp_types.specs.Readers.{unknown};
ghost use Rattle.xp_types.specs.Within.{IsType};
ghost use Rattle.xp_tree.specs.Term.{constant, leaf, type_of};
ghost use Rattle.xp_coerce.specs.Asked.{IsSource, is_constant};
ghost use Rattle.xp_coerce.specs.Coerced.{is_memory, read, read_text, read_value};
ghost use Rattle.xp_coerce.specs.Types.{node_type};

use crate::fault::CoerceFault;
use crate::types::node_type;
use std::alloc::Global;
use xp_base::{Memory, Txt, TypeNo, VALUE_LIMIT};
use xp_catalog::Catalog;
use xp_io::read_value;
use xp_tree::{Node, Tree};
use xp_types::UNKNOWN;
use xp_value::Value;

/// A text that has no type yet.
#[tactic(auto, using(crate::proofs::Constants::some_types, crate::proofs::Constants::text_fits))]
pub fn literal(alloc: Global, c: &Catalog, text: Txt) -> Result<Tree, Memory>
    requires { length text ≤ VALUE_LIMIT }
    ensures value { IfOk result (λ t. t ≡ leaf (constant (Opaque text)) (node_type c.now unknown)) }
    ensures source { IfOk result (IsSource c.now) }
{
    c.is_well_formed_law();
    Tree::make_constant(alloc, Value::Opaque(text), node_type(c, UNKNOWN))
}

/// A null that has no type yet.
#[tactic(auto, using(crate::proofs::Constants::some_types, crate::proofs::Constants::null_fits))]
pub fn null(alloc: Global, c: &Catalog) -> Result<Tree, Memory>
    ensures value { IfOk result (λ t. t ≡ leaf (constant Null) (node_type c.now unknown)) }
    ensures source { IfOk result (IsSource c.now) }
{
    c.is_well_formed_law();
    Tree::make_constant(alloc, Value::Null, node_type(c, UNKNOWN))
}

/// The constant of the type that a text is, or that the text is none of it.
#[tactic(auto, using(crate::proofs::Constants::read_err, crate::proofs::Constants::read_fits, crate::proofs::Constants::read_ok))]
pub fn read_text(alloc: Global, c: &Catalog, text: &[u8], ty: TypeNo) -> Result<Tree, CoerceFault>
    requires { IsType c.now ty }
    ensures value { OrMemory is_memory (read_text c.now ty text.now) result }
    ensures typed { IfOk result (λ a. type_of a ≡ node_type c.now ty) }
{
    match read_value(alloc, c, ty, text) {
        Ok(value) => Ok(Tree::make_constant(alloc, value, node_type(c, ty))?),
        Err(fault) => Err(CoerceFault::from(fault)),
    }
}

/// The constant of the type that a literal's value is.
#[tactic(auto, using(crate::proofs::Constants::null_fits))]
fn read_constant(alloc: Global, c: &Catalog, value: Value, ty: TypeNo) -> Result<Tree, CoerceFault>
    requires ty { IsType c.now ty }
    requires value { has (plain rep.Opaque) value ≡ true }
    ensures value { OrMemory is_memory (read_value c.now ty value) result }
    ensures typed { IfOk result (λ a. type_of a ≡ node_type c.now ty) }
{
    match value {
        Value::Opaque(text) => read_text(alloc, c, text.as_str().as_bytes(), ty),
        Value::Null => Ok(Tree::make_constant(alloc, Value::Null, node_type(c, ty))?),
        _ => unreachable!(),
    }
}

/// The constant of the type that a literal is.
pub fn read(alloc: Global, c: &Catalog, t: Tree, ty: TypeNo) -> Result<Tree, CoerceFault>
    requires ty { IsType c.now ty }
    requires literal { is_constant t ≡ true }
    requires unknown { type_of t ≡ node_type c.now unknown }
    ensures value { OrMemory is_memory (read c.now ty t) result }
    ensures typed { IfOk result (λ a. type_of a ≡ node_type c.now ty) }
{
    // no record gives the type `unknown`
    c.is_well_formed_law();
    match t.into_top() {
        Node::Constant { value, .. } => read_constant(alloc, c, value, ty),
        _ => unreachable!(),
    }
}
