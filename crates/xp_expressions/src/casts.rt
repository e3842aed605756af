//! Casts, constants of a type, and ARRAY without elements under a cast (manual 4.1.2.7, 4.2.9, 4.2.12).
ghost use Rattle.std.specs.Prelude.{◌≡◌, IfOk, Result, true};
ghost use Rattle.xp_base.specs.FromLeft.{and_then};
ghost use Rattle.xp_base.specs.OrMemory.{OrMemory};
ghost use Rattle.xp_coerce.specs.Asked.{IsSource};
ghost use Rattle.xp_named.specs.Named.{IsNamed, named_type};
ghost use Rattle.xp_named.specs.declared.refusal.Refusal.{Refusal};
ghost use Rattle.xp_resolve.specs.declared.made.Made.{Made};
ghost use Rattle.xp_resolve.specs.inner.Sources.{IsScene};
ghost use Rattle.xp_resolve.specs.Made.{is_memory};
ghost use Rattle.xp_types.specs.Readers.{is_array as names_array};
ghost use Rattle.xp_expressions.specs.Casts as spec;

use std::alloc::Global;
use xp_base::{Code, Span};
use xp_catalog::{Catalog, Context};
use xp_forms::empty_array;
use xp_grammar::TypeWords;
use xp_named::{NamedType, name_type};
use xp_resolve::{Made, Progress, Refusal, Scene, convert, finished, refused, typed_literal};
use xp_types::is_array;

/// The tree cast to the type, beside trees of `before` nodes.
fn cast_to(
    alloc: Global,
    scene: &Scene<'_>,
    at: Span,
    before: u64,
    named: NamedType,
    made: Made,
) -> Result<Made, Refusal>
    requires scene { IsScene scene.now }
    requires source { IsSource scene.now.c made.part.tree }
    requires named { IsNamed scene.now.c named }
    ensures value { OrMemory is_memory (spec.cast_to scene.now at before named made) result }
    ensures source { IfOk result (λ m. IsSource scene.now.c m.part.tree) }
{
    let at = u64::from(at.start);
    let Made {
        part,
        progress: Progress { nodes, uses },
    } = made;
    match convert(alloc, scene, at, nodes, part, named, Context::Explicit) {
        Ok(one) => finished(scene, at, before, uses, one.tree),
        Err(refusal) => Err(refusal),
    }
}

fn cast_words(
    alloc: Global,
    scene: &Scene<'_>,
    at: Span,
    words: &TypeWords,
    before: u64,
    made: Made,
) -> Result<Made, Refusal>
    requires scene { IsScene scene.now }
    requires source { IsSource scene.now.c made.part.tree }
    ensures value { OrMemory is_memory (spec.cast_words scene.now at words.now before made) result }
    ensures source { IfOk result (λ m. IsSource scene.now.c m.part.tree) }
{
    match name_type(scene.catalog(), words) {
        Ok(named) => cast_to(alloc, scene, at, before, named, made),
        Err(refusal) => Err(refusal),
    }
}

/// The operand cast to the type of those words, which is named once the operand is there.
pub fn cast_operand(
    alloc: Global,
    scene: &Scene<'_>,
    at: Span,
    words: &TypeWords,
    before: u64,
    operand: Result<Made, Refusal>,
) -> Result<Made, Refusal>
    requires scene { IsScene scene.now }
    requires source { IfOk operand (λ m. IsSource scene.now.c m.part.tree) }
    ensures value { (said : Result Made Refusal) → OrMemory is_memory said operand → OrMemory is_memory (and_then said (spec.cast_words scene.now at words.now before)) result }
    ensures source { IfOk result (λ m. IsSource scene.now.c m.part.tree) }
{
    let made = operand?;
    cast_words(alloc, scene, at, words, before, made)
}

/// A type's name before a string.
pub fn typed(
    alloc: Global,
    scene: &Scene<'_>,
    at: Span,
    words: &TypeWords,
    text: &str,
    progress: Progress,
) -> Result<Made, Refusal>
    requires scene { IsScene scene.now }
    ensures value { OrMemory is_memory (spec.typed scene.now at words.now text.now progress) result }
    ensures source { IfOk result (λ m. IsSource scene.now.c m.part.tree) }
{
    let at = u64::from(at.start);
    match name_type(scene.catalog(), words) {
        Ok(named) => typed_literal(alloc, scene, at, named, text, progress),
        Err(refusal) => Err(refusal),
    }
}

/// The array type that the words name, under a cast of the ARRAY without elements at that place.
fn array_named(c: &Catalog, words: &TypeWords, place: u64) -> Result<NamedType, Refusal>
    ensures value { result ≡ spec.array_named c.now words.now place (named_type c.now words.now) }
    ensures named { IfOk result (IsNamed c.now) }
    ensures array { IfOk result (λ named. names_array c.now named.ty ≡ true) }
{
    match name_type(c, words) {
        Ok(named) => {
            if is_array(c, named.ty) {
                Ok(named)
            } else {
                refused(Code::Indeterminate, place)
            }
        }
        Err(refusal) => {
            if words.array {
                Err(refusal)
            } else {
                refused(Code::Indeterminate, place)
            }
        }
    }
}

fn empty_as(
    alloc: Global,
    scene: &Scene<'_>,
    at: Span,
    place: u64,
    progress: Progress,
    named: NamedType,
) -> Result<Made, Refusal>
    requires scene { IsScene scene.now }
    requires named { IsNamed scene.now.c named }
    requires array { names_array scene.now.c named.ty ≡ true }
    ensures value { OrMemory is_memory (spec.empty_as scene.now at place progress named) result }
    ensures source { IfOk result (λ m. IsSource scene.now.c m.part.tree) }
{
    let before = progress.nodes;
    match empty_array(alloc, scene, place, named.ty, progress) {
        Ok(made) => cast_to(alloc, scene, at, before, named, made),
        Err(refusal) => Err(refusal),
    }
}

/// The ARRAY without elements at that place, which stands right under a cast to the type of the words.
pub fn empty_cast(
    alloc: Global,
    scene: &Scene<'_>,
    at: Span,
    words: &TypeWords,
    place: u64,
    progress: Progress,
) -> Result<Made, Refusal>
    requires scene { IsScene scene.now }
    ensures value { OrMemory is_memory (spec.empty_cast scene.now at words.now place progress) result }
    ensures source { IfOk result (λ m. IsSource scene.now.c m.part.tree) }
{
    match array_named(scene.catalog(), words, place) {
        Ok(named) => empty_as(alloc, scene, at, place, progress, named),
        Err(refusal) => Err(refusal),
    }
}
