//! Nodes over values that are arguments of functions.
ghost use Rattle.std.specs.Prelude.{◌≡◌, ◌<◌, IfOk, Some, codes, length, option_map, slice_get, true};
ghost use Rattle.std.specs.List.{All};
ghost use Rattle.std.specs.Option.{option_and_then};
ghost use Rattle.xp_catalog.specs.Lookups.{type_named};
ghost use Rattle.xp_bodies.specs.Fits.{IsFitted};
ghost use Rattle.xp_types.specs.Readers.{array_of, base, is_array};
ghost use Rattle.xp_types.specs.Within.{IsType};
ghost use Rattle.xp_tree.specs.Term.{array, call, many, terms, type_of};
ghost use Rattle.xp_tree.specs.Typed.{AllTyped, types_of};
ghost use Rattle.xp_coerce.specs.Asked.{IsSource};
ghost use Rattle.xp_coerce.specs.Types.{node_type};
ghost use Rattle.xp_coerce.specs.Ways.{func_callee};
ghost use Rattle.xp_resolve.specs.Nodes.{elements_written, taking_named, taking_of, written};
ghost use Rattle.xp_resolve.specs.inner.Stands.{IsElementOf, StandAt};

use std::alloc::Global;
use xp_base::{BodyNo, Memory, RowNo, TypeNo};
use xp_bodies::row_at;
use xp_catalog::Catalog;
use xp_coerce::{callee_of, node_type};
use xp_tree::{Tree, Trees, Way};

/// How a body takes arguments of polymorphic types.
#[derive(Clone, Copy, Debug, PartialEq, Eq)]
pub enum Taking {
    /// As values of the types that are bound.
    AsBound,
    /// The one at anynonarray as a text.
    AsText,
    /// The elements of the one at anyarray as texts.
    ElementsAsText,
}

fn taking_named(name: &str) -> Taking
    ensures { result ≡ taking_named name.now }
{
    match name {
        "textany_text_anynonarray" | "anytext_anynonarray_text" => Taking::AsText,
        "array_to_string_anyarray_text" | "array_to_string_anyarray_text_text" => {
            Taking::ElementsAsText
        }
        _ => Taking::AsBound,
    }
}

/// How the body of a function takes them; a function without one takes them as they are bound.
pub fn taking_of(body: Option<BodyNo>) -> Taking
    ensures { result ≡ taking_of body }
{
    match body {
        None => Taking::AsBound,
        Some(body) => match row_at(body) {
            Some(row) => taking_named(row.name),
            None => Taking::AsBound,
        },
    }
}

/// The text that stands for a value; a text stays as it stands.
pub fn written(alloc: Global, c: &Catalog, t: Tree, text: TypeNo) -> Result<Tree, Memory>
    requires source { IsSource c.now t }
    requires text { type_named c.now (codes "text") ≡ Some text }
    ensures value { IfOk result (λ a. a ≡ written c.now text t) }
    ensures typed { IfOk result (λ a. type_of a ≡ node_type c.now text) }
{
    // the rules of records say how values of the type of that name are kept
    c.is_well_formed_law();
    t.is_typed_law();
    if t.type_of().0 == text.0 {
        Ok(t)
    } else {
        Tree::make_output(alloc, t, node_type(c, text))
    }
}

/// The array of the texts of an array's elements; an array of texts stays as it stands.
pub fn elements_written(alloc: Global, c: &Catalog, t: Tree, texts: TypeNo) -> Result<Tree, Memory>
    requires source { IsSource c.now t }
    requires array { is_array c.now (base c.now (type_of t).no) ≡ true }
    requires texts { option_and_then (array_of c.now) (type_named c.now (codes "text")) ≡ Some texts }
    ensures value { IfOk result (λ a. a ≡ elements_written c.now texts t) }
    ensures typed { IfOk result (λ a. type_of a ≡ node_type c.now texts) }
{
    // the rules of records say how values of the type of that name are kept
    c.is_well_formed_law();
    t.is_typed_law();
    if t.type_of().0 == texts.0 {
        Ok(t)
    } else {
        Tree::make_elements(alloc, t, Way::ByOutput, node_type(c, texts))
    }
}

/// A law: each tree of the list has what its nodes ask for.
pub fn are_typed_law(trees: &[Tree])
    ensures { AllTyped (terms trees.now) }
{
    for t in trees {
        t.is_typed_law();
    }
}

/// An array of values, of that array type.
pub fn array_over(alloc: Global, c: &Catalog, trees: Trees, ty: TypeNo) -> Result<Tree, Memory>
    requires ty { IsType c.now ty }
    requires alike { All (λ t. IsElementOf c.now ty (type_of t)) trees }
    ensures value { IfOk result (λ a. a ≡ many array (terms trees) (node_type c.now ty)) }
    ensures typed { IfOk result (λ a. type_of a ≡ node_type c.now ty) }
{
    are_typed_law(trees.as_slice());
    Tree::make_array(alloc, trees, node_type(c, ty))
}

/// A call of the function of that row.
pub fn call_of(
    alloc: Global,
    c: &Catalog,
    row: RowNo,
    trees: Trees,
    result_type: TypeNo,
) -> Result<Tree, Memory>
    requires fitted { IsFitted c.now }
    requires row { row.0 < length c.now.funcs }
    requires result { IsType c.now result_type }
    requires stands { StandAt c.now row (types_of (terms trees)) }
    ensures value { IfOk result (λ a. option_map (λ func. many (call (func_callee row func)) (terms trees) (node_type c.now result_type)) (slice_get c.now.funcs row.0) ≡ Some a) }
    ensures typed { IfOk result (λ a. type_of a ≡ node_type c.now result_type) }
{
    // the rules of records say which types have the names that bodies declare
    c.is_well_formed_law();
    are_typed_law(trees.as_slice());
    let callee = callee_of(c, row);
    Tree::make_call(alloc, callee, trees, node_type(c, result_type))
}
