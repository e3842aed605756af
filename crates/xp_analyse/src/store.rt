//! STORE: a value kept as one of a type (manual 10.4).
ghost use Rattle.std.specs.Prelude.{◌≡◌, ◌∷◌, [], IfOk, true};
ghost use Rattle.std.specs.List.{All};
ghost use Rattle.xp_base.specs.OrMemory.{OrMemory};
ghost use Rattle.xp_call.specs.Calls.{is_built};
ghost use Rattle.xp_coerce.specs.Asked.{IsSource};
ghost use Rattle.xp_meaning.specs.Evaluable.{all_evaluable};
ghost use Rattle.xp_resolve.specs.inner.Sources.{IsScene};
ghost use Rattle.xp_resolve.specs.Made.{is_memory};
ghost use Rattle.xp_tree.specs.Term.{Term, terms};
ghost use Rattle.xp_analyse.specs.Statements as spec;

use crate::begins::first_of;
use crate::ready::typed_of;
use crate::typed::Typed;
use crate::untyped::left_in_source;
use sqlite_items::Items;
use std::alloc::Global;
use xp_base::{Code, Memory};
use xp_catalog::Context;
use xp_eval::is_evaluable;
use xp_expressions::{nothing_yet, resolve};
use xp_grammar::{Ast, TypeWords};
use xp_named::name_type;
use xp_resolve::{Converted, Made, Part, Progress, Refusal, Scene, Uses, convert, push, refused};
use xp_tree::Tree;

/// The tree as one of the type of those words, as which it is assigned.
fn assigned(
    alloc: Global,
    scene: &Scene<'_>,
    words: &TypeWords,
    nodes: u64,
    part: Part,
) -> Result<Converted, Refusal>
    requires scene { IsScene scene.now }
    requires source { IsSource scene.now.c part.tree }
    ensures { OrMemory is_memory (spec.assigned scene.now words.now nodes part) result }
{
    let at = u64::from(words.at.start);
    match name_type(scene.catalog(), words) {
        Ok(named) => convert(alloc, scene, at, nodes, part, named, Context::Assignment),
        Err(refusal) => Err(refusal),
    }
}

/// The tree as that of one SELECT.
fn typed_one(alloc: Global, uses: Uses, tree: Tree) -> Result<Typed, Memory>
    ensures { IfOk result (λ typed. typed ≡ spec.typed_of true uses ((tree ∷ []) ∷ [])) }
{
    let mut trees = Items::new(alloc);
    push(&mut trees, tree)?;
    let mut lists = Items::new(alloc);
    push(&mut lists, trees)?;
    typed_of(alloc, true, uses, lists)
}

/// The tree, which has to be one that can be evaluated.
fn readied(alloc: Global, source: &Ast, uses: Uses, tree: Tree) -> Result<Typed, Refusal>
    ensures value { OrMemory is_memory (spec.stored_as source.now uses tree) result }
    ensures ready { IfOk result (λ typed. All (λ arm. all_evaluable is_built (terms arm.trees) ≡ true) typed.arms) }
{
    if is_evaluable(&tree) {
        Ok(typed_one(alloc, uses, tree)?)
    } else {
        refused(Code::NoBody, first_of(source))
    }
}

/// A STORE.
pub fn store(
    alloc: Global,
    scene: &Scene<'_>,
    words: &TypeWords,
    source: &Ast,
) -> Result<Typed, Refusal>
    requires { IsScene scene.now }
    ensures value { OrMemory is_memory (spec.stored scene.now words.now source.now) result }
    ensures ready { IfOk result (λ typed. All (λ arm. all_evaluable is_built (terms arm.trees) ≡ true) typed.arms) }
{
    let Made {
        part,
        progress: Progress { nodes, uses },
    } = resolve(alloc, scene, source, nothing_yet(alloc))?;
    let one = assigned(alloc, scene, words, nodes, part)?;
    if let Some(at) = left_in_source(scene.catalog(), source) {
        return refused(Code::UnknownType, at);
    }
    readied(alloc, source, uses, one.tree)
}
