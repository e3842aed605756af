//! Constants, columns and VALUE (manual 4.1.2, 4.2.1, CREATE DOMAIN).
ghost use Rattle.std.specs.Prelude.{◌≡◌, ◌<◌, ◌^◌, IfOk, IfSome, true};
ghost use Rattle.std.specs.Fmt.{decimal};
ghost use Rattle.xp_base.specs.OrMemory.{OrMemory};
ghost use Rattle.xp_coerce.specs.Asked.{IsSource};
ghost use Rattle.xp_named.specs.Named.{IsNamed};
ghost use Rattle.xp_coerce.specs.Types.{node_type};
ghost use Rattle.xp_numeric.specs.Texts.{text};
ghost use Rattle.xp_tree.specs.Term.{column, given, leaf};
ghost use Rattle.xp_types.specs.Readers.{is_known};
ghost use Rattle.xp_types.specs.Within.{IsType};
ghost use Rattle.xp_resolve.specs.Literals as spec;
ghost use Rattle.xp_resolve.specs.Made.{is_memory};
ghost use Rattle.xp_resolve.specs.inner.Sources.{IsScene, IsValued};

use crate::conversions::refusal_of;
use crate::made::{Made, Progress, finished, refused};
use crate::scene::Scene;
use itoa::Buffer;
use std::alloc::Global;
use xp_base::{Byts, Code, Dec, EvalError, Memory, Name, Txt, TypeNo, VALUE_LIMIT};
use xp_catalog::{Catalog, Context};
use xp_coerce::{coerce, literal, node_type, null, read_text};
use xp_named::{NamedType, Refusal};
use xp_numeric::write_numeric;
use xp_tree::Tree;

/// A text that has no type yet.
fn new_literal(alloc: Global, scene: &Scene<'_>, at: u64, text: &str) -> Result<Tree, Refusal>
    ensures value { OrMemory is_memory (spec.literal scene.now.c at text.now) result }
    ensures source { IfOk result (IsSource scene.now.c) }
{
    if text.len() > VALUE_LIMIT as usize {
        return refused(Code::Raised(EvalError::Limit), at);
    }
    let text = Txt::from_str(alloc, text)?;
    Ok(literal(alloc, scene.catalog(), text)?)
}

/// A string constant, which has no type yet (manual 4.1.2.1).
pub fn text_literal(
    alloc: Global,
    scene: &Scene<'_>,
    at: u64,
    text: &str,
    progress: Progress,
) -> Result<Made, Refusal>
    ensures value { OrMemory is_memory (spec.text_literal scene.now at text.now progress) result }
    ensures source { IfOk result (λ made. IsSource scene.now.c made.part.tree) }
{
    let tree = new_literal(alloc, scene, at, text)?;
    finished(scene, at, progress.nodes, progress.uses, tree)
}

/// NULL, which has no type yet.
pub fn null_literal(
    alloc: Global,
    scene: &Scene<'_>,
    at: u64,
    progress: Progress,
) -> Result<Made, Refusal>
    ensures value { OrMemory is_memory (spec.null_literal scene.now at progress) result }
    ensures source { IfOk result (λ made. IsSource scene.now.c made.part.tree) }
{
    let tree = null(alloc, scene.catalog())?;
    finished(scene, at, progress.nodes, progress.uses, tree)
}

/// A text that is read as a text of the type.
#[tactic(auto, using(crate::proofs::Reading::known_source))]
fn read_as(
    alloc: Global,
    scene: &Scene<'_>,
    at: u64,
    named: NamedType,
    text: &str,
) -> Result<Tree, Refusal>
    requires scene { IsScene scene.now }
    requires named { IsNamed scene.now.c named }
    ensures value { OrMemory is_memory (spec.read_as scene.now at named text.now) result }
    ensures source { IfOk result (IsSource scene.now.c) }
{
    let t = new_literal(alloc, scene, at, text)?;
    let (c, k) = (scene.catalog(), scene.checks());
    match coerce(alloc, c, k, t, named.ty, named.modifier, Context::Explicit) {
        Ok(tree) => Ok(tree),
        Err(fault) => Err(refusal_of(Context::Explicit, at, at, fault)),
    }
}

/// A type's name before a string: the value that the string is a text of.
pub fn typed_literal(
    alloc: Global,
    scene: &Scene<'_>,
    at: u64,
    named: NamedType,
    text: &str,
    progress: Progress,
) -> Result<Made, Refusal>
    requires scene { IsScene scene.now }
    requires named { IsNamed scene.now.c named }
    ensures value { OrMemory is_memory (spec.typed_literal scene.now at named text.now progress) result }
    ensures source { IfOk result (λ made. IsSource scene.now.c made.part.tree) }
{
    let tree = read_as(alloc, scene, at, named, text)?;
    finished(scene, at, progress.nodes, progress.uses, tree)
}

#[tactic(auto, using(crate::proofs::Reading::read_source))]
fn constant_of(
    alloc: Global,
    scene: &Scene<'_>,
    at: u64,
    ty: TypeNo,
    text: &[u8],
) -> Result<Tree, Refusal>
    requires { IsType scene.now.c ty }
    ensures value { OrMemory is_memory (spec.constant_of scene.now at ty text.now) result }
    ensures source { IfOk result (IsSource scene.now.c) }
{
    match read_text(alloc, scene.catalog(), text, ty) {
        Ok(tree) => Ok(tree),
        Err(fault) => Err(refusal_of(Context::Explicit, at, at, fault)),
    }
}

fn constant(
    alloc: Global,
    scene: &Scene<'_>,
    at: u64,
    ty: TypeNo,
    text: &[u8],
    progress: Progress,
) -> Result<Made, Refusal>
    requires { IsType scene.now.c ty }
    ensures value { OrMemory is_memory (spec.constant scene.now at ty text.now progress) result }
    ensures source { IfOk result (λ made. IsSource scene.now.c made.part.tree) }
{
    let tree = constant_of(alloc, scene, at, ty, text)?;
    finished(scene, at, progress.nodes, progress.uses, tree)
}

/// The constant that a text of the type of that name is.
#[tactic(auto, using(crate::proofs::Reading::constant_at))]
pub fn constant_named(
    alloc: Global,
    scene: &Scene<'_>,
    at: u64,
    name: &str,
    text: &[u8],
    progress: Progress,
) -> Result<Made, Refusal>
    ensures value { OrMemory is_memory (spec.constant_named scene.now at name.now text.now progress) result }
    ensures source { IfOk result (λ made. IsSource scene.now.c made.part.tree) }
{
    match scene.catalog().type_named(name) {
        Some(ty) => constant(alloc, scene, at, ty, text, progress),
        None => refused(Code::UnknownType, at),
    }
}

fn number_type(number: Dec, whole: bool) -> &'static str
    ensures { result.now ≡ spec.number_type number whole }
{
    if whole && number.coef < 1 << 31 {
        "int4"
    } else if whole && number.coef < 1 << 63 {
        "int8"
    } else {
        "numeric"
    }
}

/// The constant of a whole number, whose digits take no memory.
fn whole_number(
    alloc: Global,
    scene: &Scene<'_>,
    at: u64,
    name: &str,
    coef: u64,
    progress: Progress,
) -> Result<Made, Refusal>
    ensures value { OrMemory is_memory (spec.constant_named scene.now at name.now (decimal coef) progress) result }
    ensures source { IfOk result (λ made. IsSource scene.now.c made.part.tree) }
{
    let mut digits = Buffer::new();
    let text = digits.format(coef).as_bytes();
    constant_named(alloc, scene, at, name, text, progress)
}

/// The constant of any number, by its text.
fn written_number(
    alloc: Global,
    scene: &Scene<'_>,
    at: u64,
    name: &str,
    value: Dec,
    progress: Progress,
) -> Result<Made, Refusal>
    ensures value { OrMemory is_memory (spec.constant_named scene.now at name.now (text value) progress) result }
    ensures source { IfOk result (λ made. IsSource scene.now.c made.part.tree) }
{
    let mut text = Byts::new(alloc);
    write_numeric(value, &mut text)?;
    constant_named(alloc, scene, at, name, text.as_slice(), progress)
}

/// The digits of a number that is nothing else.
#[tactic(auto, using(crate::proofs::Reading::whole_text))]
fn digits_of(value: Dec) -> Option<u64>
    ensures { IfSome result (λ digits. text value ≡ decimal digits) }
{
    if value.scale == 0 && !value.neg && value.coef < 1 << 64 {
        Some(value.coef as u64)
    } else {
        None
    }
}

/// A numeric constant (manual 4.1.2.6).
pub fn number(
    alloc: Global,
    scene: &Scene<'_>,
    at: u64,
    value: Dec,
    whole: bool,
    progress: Progress,
) -> Result<Made, Refusal>
    ensures value { OrMemory is_memory (spec.number scene.now at value whole progress) result }
    ensures source { IfOk result (λ made. IsSource scene.now.c made.part.tree) }
{
    let name = number_type(value, whole);
    match digits_of(value) {
        Some(digits) => whole_number(alloc, scene, at, name, digits, progress),
        None => written_number(alloc, scene, at, name, value, progress),
    }
}

fn truth_text(value: bool) -> &'static str
    ensures { result.now ≡ spec.truth_text value }
{
    if value { "true" } else { "false" }
}

/// TRUE or FALSE (manual 8.6).
pub fn truth(
    alloc: Global,
    scene: &Scene<'_>,
    at: u64,
    value: bool,
    progress: Progress,
) -> Result<Made, Refusal>
    ensures value { OrMemory is_memory (spec.truth scene.now at value progress) result }
    ensures source { IfOk result (λ made. IsSource scene.now.c made.part.tree) }
{
    let text = truth_text(value).as_bytes();
    constant_named(alloc, scene, at, "bool", text, progress)
}

fn new_column(
    alloc: Global,
    c: &Catalog,
    place: usize,
    name: &str,
    ty: TypeNo,
) -> Result<Tree, Memory>
    requires place { place < 2 ^ 32 }
    requires ty { IsType c.now ty }
    ensures value { IfOk result (λ t. t ≡ leaf (column place name.now) (node_type c.now ty)) }
{
    let name = Name::from_str(alloc, name)?;
    Tree::make_column(alloc, place as u32, name, node_type(c, ty))
}

/// The column at that place, which has that name.
#[tactic(auto, using(crate::proofs::Reading::known_source))]
fn column_at(
    alloc: Global,
    scene: &Scene<'_>,
    at: u64,
    name: &str,
    place: usize,
    ty: TypeNo,
    progress: Progress,
) -> Result<Made, Refusal>
    requires place { place < 2 ^ 32 }
    requires ty { IsType scene.now.c ty }
    requires known { is_known ty ≡ true }
    ensures value { OrMemory is_memory (spec.column_of scene.now at name.now progress place ty) result }
    ensures source { IfOk result (λ made. IsSource scene.now.c made.part.tree) }
{
    let tree = new_column(alloc, scene.catalog(), place, name, ty)?;
    finished(scene, at, progress.nodes, progress.uses, tree)
}

fn new_value(alloc: Global, c: &Catalog, ty: TypeNo) -> Result<Tree, Memory>
    requires { IsType c.now ty }
    ensures { IfOk result (λ t. t ≡ leaf given (node_type c.now ty)) }
{
    Tree::make_given(alloc, node_type(c, ty))
}

/// VALUE, which has that type.
#[tactic(auto, using(crate::proofs::Reading::known_source))]
fn value_of(
    alloc: Global,
    scene: &Scene<'_>,
    at: u64,
    ty: TypeNo,
    progress: Progress,
) -> Result<Made, Refusal>
    requires { IsValued scene.now.c ty }
    ensures value { OrMemory is_memory (spec.value_of scene.now at progress ty) result }
    ensures source { IfOk result (λ made. IsSource scene.now.c made.part.tree) }
{
    let tree = new_value(alloc, scene.catalog(), ty)?;
    finished(scene, at, progress.nodes, progress.uses, tree)
}

/// VALUE, where the expression is a domain's check and this is the name of it.
fn named_value(
    alloc: Global,
    scene: &Scene<'_>,
    at: u64,
    name: &str,
    progress: Progress,
) -> Result<Made, Refusal>
    requires { IsScene scene.now }
    ensures value { OrMemory is_memory (spec.named_value scene.now at name.now progress) result }
    ensures source { IfOk result (λ made. IsSource scene.now.c made.part.tree) }
{
    if name != "value" {
        return refused(Code::UnknownColumn, at);
    }
    match scene.value() {
        Some(ty) => value_of(alloc, scene, at, ty, progress),
        None => refused(Code::UnknownColumn, at),
    }
}

/// The column of that name; in a domain's check, VALUE.
pub fn named_column(
    alloc: Global,
    scene: &Scene<'_>,
    at: u64,
    name: &str,
    progress: Progress,
) -> Result<Made, Refusal>
    requires { IsScene scene.now }
    ensures value { OrMemory is_memory (spec.named_column scene.now at name.now progress) result }
    ensures source { IfOk result (λ made. IsSource scene.now.c made.part.tree) }
{
    let header = scene.header();
    match header.column_named(name) {
        Some(place) => {
            let ty = header.columns()[place].ty;
            column_at(alloc, scene, at, name, place, ty, progress)
        }
        None => named_value(alloc, scene, at, name, progress),
    }
}
