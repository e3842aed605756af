//! Conversions of a call's arguments.
ghost use Rattle.std.specs.Prelude.{◌≡◌, ◌<◌, ◌^◌, ◌-◌, IfOk, Some, codes, length, min, option_and_then, true};
ghost use Rattle.std.specs.List.{All};
ghost use Rattle.xp_base.specs.OrMemory.{OrMemory};
ghost use Rattle.xp_catalog.specs.Lookups.{type_named};
ghost use Rattle.xp_coerce.specs.Asked.{IsSource};
ghost use Rattle.xp_coerce.specs.Types.{node_type};
ghost use Rattle.xp_named.specs.Modifiers.{takes_modifier};
ghost use Rattle.xp_tree.specs.Term.{Term, size, type_of};
ghost use Rattle.xp_types.specs.Readers.{array_of};
ghost use Rattle.xp_types.specs.Within.{IsType};
ghost use Rattle.xp_resolve.specs.Conversions as spec;
ghost use Rattle.xp_resolve.specs.Made.{is_memory};
ghost use Rattle.xp_resolve.specs.inner.Sources.{AreOf, AreSources, IsScene, IsTarget, target_type};

use crate::lists::push;
use crate::made::{Part, Parts, counted, refused};
use crate::nodes::{elements_written, written};
use crate::queue::Queue;
use crate::scene::Scene;
use crate::targets::Target;
use sqlite_items::Items;
use std::alloc::Global;
use xp_base::{Code, TypeNo};
use xp_catalog::{Catalog, Context};
use xp_coerce::{CoerceFault, coerce};
use xp_named::{NamedType, Refusal};
use xp_tree::{Modifier, Tree, Trees};
use xp_types::{array_of, base, is_array, is_known};

/// A tree that was converted, and how many nodes there are then.
#[derive(Drop)]
pub struct Converted {
    pub tree: Tree,
    pub nodes: u64,
}

/// Trees that were converted, and how many nodes there are then.
#[derive(Drop)]
pub struct ConvertedAll {
    pub trees: Trees,
    pub nodes: u64,
}

/// How a conversion that isn't there is refused.
fn missing(context: Context) -> Code
    ensures { result ≡ spec.missing context }
{
    match context {
        Context::Assignment => Code::Mismatch,
        Context::Implicit | Context::Explicit => Code::CannotCoerce,
    }
}

/// The refusal of a conversion that is asked for at one place, of a literal at another.
pub fn refusal_of(context: Context, asked_at: u64, literal_at: u64, fault: CoerceFault) -> Refusal
    ensures { result ≡ spec.refusal_of context asked_at literal_at fault }
{
    match fault {
        CoerceFault::CannotCoerce { .. } => Refusal::At {
            code: missing(context),
            at: asked_at,
        },
        CoerceFault::BadLiteral { code } => Refusal::At {
            code,
            at: literal_at,
        },
        CoerceFault::Memory => Refusal::Memory,
    }
}

/// The tree, in place of one of `old` nodes.
fn in_place_of(scene: &Scene<'_>, nodes: u64, old: u64, tree: Tree) -> Result<Converted, Refusal>
    ensures { (t : Term) → old ≡ min (size t) (2 ^ 64 - 1) → result ≡ spec.in_place_of scene.now nodes t tree }
{
    let together = nodes.saturating_sub(old).saturating_add(tree.size());
    let nodes = counted(scene, together)?;
    Ok(Converted { tree, nodes })
}

/// The tree converted as it is asked for at that place.
pub fn convert(
    alloc: Global,
    scene: &Scene<'_>,
    at: u64,
    nodes: u64,
    part: Part,
    named: NamedType,
    context: Context,
) -> Result<Converted, Refusal>
    requires scene { IsScene scene.now }
    requires source { IsSource scene.now.c part.tree }
    requires target { IsType scene.now.c named.ty }
    requires modifier { takes_modifier scene.now.c named.ty named.modifier ≡ true }
    ensures value { OrMemory is_memory (spec.converted scene.now at nodes part named context) result }
    ensures typed { IfOk result (λ one. type_of one.tree ≡ node_type scene.now.c named.ty) }
{
    let Part {
        tree,
        at: literal_at,
    } = part;
    let before = tree.size();
    let (c, k) = (scene.catalog(), scene.checks());
    match coerce(alloc, c, k, tree, named.ty, named.modifier, context) {
        Ok(tree) => in_place_of(scene, nodes, before, tree),
        Err(fault) => Err(refusal_of(context, at, literal_at, fault)),
    }
}

/// The type, without a modifier.
pub fn plainly(ty: TypeNo) -> NamedType
    ensures { result ≡ spec.plainly ty }
{
    NamedType {
        ty,
        modifier: Modifier::None,
    }
}

/// The type text, which is asked for at that place.
pub fn text_type(c: &Catalog, at: u64) -> Result<TypeNo, Refusal>
    ensures value { result ≡ spec.text_type c.now at }
    ensures named { IfOk result (λ text. type_named c.now (codes "text") ≡ Some text) }
    ensures within { IfOk result (IsType c.now) }
{
    match c.type_named("text") {
        Some(text) => Ok(text),
        None => refused(Code::UnknownType, at),
    }
}

/// The text that stands for the value.
fn as_written(
    alloc: Global,
    scene: &Scene<'_>,
    at: u64,
    nodes: u64,
    part: Part,
    text: TypeNo,
) -> Result<Converted, Refusal>
    requires scene { IsScene scene.now }
    requires source { IsSource scene.now.c part.tree }
    requires named { type_named scene.now.c (codes "text") ≡ Some text }
    requires within { IsType scene.now.c text }
    ensures value { OrMemory is_memory (spec.as_written scene.now at nodes part text) result }
    ensures typed { IfOk result (λ one. type_of one.tree ≡ node_type scene.now.c text) }
{
    if !is_known(part.tree.type_of()) {
        return convert(
            alloc,
            scene,
            at,
            nodes,
            part,
            plainly(text),
            Context::Implicit,
        );
    }
    let before = part.tree.size();
    let tree = written(alloc, scene.catalog(), part.tree, text)?;
    in_place_of(scene, nodes, before, tree)
}

/// The array of the texts that stand for the elements.
fn as_texts(
    alloc: Global,
    scene: &Scene<'_>,
    at: u64,
    nodes: u64,
    part: Part,
    texts: TypeNo,
) -> Result<Converted, Refusal>
    requires source { IsSource scene.now.c part.tree }
    requires within { IsType scene.now.c texts }
    requires named { option_and_then (array_of scene.now.c) (type_named scene.now.c (codes "text")) ≡ Some texts }
    ensures value { OrMemory is_memory (spec.as_texts scene.now at nodes part texts) result }
    ensures typed { IfOk result (λ one. type_of one.tree ≡ node_type scene.now.c texts) }
{
    let c = scene.catalog();
    if !is_array(c, base(c, part.tree.type_of())) {
        return refused(Code::Undefined, at);
    }
    let before = part.tree.size();
    let tree = elements_written(alloc, c, part.tree, texts)?;
    in_place_of(scene, nodes, before, tree)
}

/// The argument, converted for the call at that place.
fn argument(
    alloc: Global,
    scene: &Scene<'_>,
    at: u64,
    nodes: u64,
    part: Part,
    target: Target,
) -> Result<Converted, Refusal>
    requires scene { IsScene scene.now }
    requires source { IsSource scene.now.c part.tree }
    requires target { IsTarget scene.now.c target }
    ensures value { OrMemory is_memory (spec.argument scene.now at nodes part target) result }
    ensures typed { IfOk result (λ one. type_of one.tree ≡ target_type scene.now.c target) }
{
    let c = scene.catalog();
    match target {
        Target::Of(ty) => {
            convert(
                alloc,
                scene,
                at,
                nodes,
                part,
                plainly(ty),
                Context::Implicit,
            )
        }
        Target::Text => {
            let text = text_type(c, at)?;
            convert(
                alloc,
                scene,
                at,
                nodes,
                part,
                plainly(text),
                Context::Explicit,
            )
        }
        Target::Written => {
            let text = text_type(c, at)?;
            as_written(alloc, scene, at, nodes, part, text)
        }
        Target::ElementsWritten => {
            let text = text_type(c, at)?;
            match array_of(c, text) {
                Some(texts) => as_texts(alloc, scene, at, nodes, part, texts),
                None => refused(Code::Undefined, at),
            }
        }
    }
}

/// The arguments from left to right, each converted to its own.
pub fn arguments(
    alloc: Global,
    scene: &Scene<'_>,
    at: u64,
    nodes: u64,
    parts: Parts,
    targets: &[Target],
) -> Result<ConvertedAll, Refusal>
    requires scene { IsScene scene.now }
    requires sources { AreSources scene.now.c parts }
    requires targets { All (IsTarget scene.now.c) targets.now }
    ensures value { OrMemory is_memory (spec.arguments scene.now at (spec.none_yet nodes) parts targets.now) result }
    ensures typed { length parts ≡ length targets.now → IfOk result (λ all. AreOf scene.now.c targets.now all.trees) }
{
    let mut queue = Queue::new(alloc, parts)?;
    let mut trees = Items::new(alloc);
    let mut nodes = nodes;
    for target in targets {
        let Some(part) = queue.pop() else {
            return Ok(ConvertedAll { trees, nodes });
        };
        let one = argument(alloc, scene, at, nodes, part, *target)?;
        push(&mut trees, one.tree)?;
        nodes = one.nodes;
    }
    Ok(ConvertedAll { trees, nodes })
}
