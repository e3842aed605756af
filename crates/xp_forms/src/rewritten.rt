//! BETWEEN, IN, LIKE and ILIKE, which stand for operators and connectives.
ghost use Rattle.std.specs.Prelude.{◌≡◌, ◌≤◌, IfOk, length, true};
ghost use Rattle.xp_base.specs.OrMemory.{OrMemory};
ghost use Rattle.xp_coerce.specs.Asked.{IsSource};
ghost use Rattle.xp_types.specs.Within.{IsType};
ghost use Rattle.xp_resolve.specs.Made.{is_memory};
ghost use Rattle.xp_resolve.specs.inner.Sources.{AreSources, IsScene};
ghost use Rattle.xp_types.specs.Readers.{is_known};
ghost use Rattle.xp_forms.specs.Rewritten as spec;

use crate::connectives::Connective;
use crate::truths::{as_truth, bool_type};
use std::alloc::Global;
use xp_base::{Code, TypeNo};
use xp_named::Refusal;
use xp_resolve::{Gathered, Made, Part, Progress, Scene, operated, refused};

/// The operator of [NOT] BETWEEN over the operand and the lower bound.
pub fn lower_operator(negated: bool) -> &'static str
    ensures { result.now ≡ spec.lower_operator negated }
{
    if negated { "<" } else { ">=" }
}

/// The operator of [NOT] BETWEEN over the operand and the upper bound.
pub fn upper_operator(negated: bool) -> &'static str
    ensures { result.now ≡ spec.upper_operator negated }
{
    if negated { ">" } else { "<=" }
}

/// What connects the two operators of [NOT] BETWEEN.
pub fn between_connective(negated: bool) -> Connective
    ensures { result ≡ spec.between_connective negated }
{
    match negated {
        false => Connective::And,
        true => Connective::Or,
    }
}

/// The operator of [NOT] IN over the operand and a member of the list.
pub fn member_operator(negated: bool) -> &'static str
    ensures { result.now ≡ spec.member_operator negated }
{
    if negated { "<>" } else { "=" }
}

/// What connects the operators of [NOT] IN.
pub fn in_connective(negated: bool) -> Connective
    ensures { result ≡ spec.in_connective negated }
{
    match negated {
        false => Connective::Or,
        true => Connective::And,
    }
}

/// How many of so many members stand in the first half.
pub fn first_half(count: usize) -> usize
    ensures value { result ≡ spec.first_half count }
    ensures within { result ≤ count }
{
    count - count / 2
}

fn judged_as(
    alloc: Global,
    scene: &Scene<'_>,
    at: u64,
    made: Made,
    ty: TypeNo,
) -> Result<Made, Refusal>
    requires scene { IsScene scene.now }
    requires source { IsSource scene.now.c made.part.tree }
    requires within { IsType scene.now.c ty }
    requires known { is_known ty ≡ true }
    ensures value { OrMemory is_memory (spec.judged_as scene.now at made ty) result }
    ensures source { IfOk result (λ m. IsSource scene.now.c m.part.tree) }
{
    let Made {
        part,
        progress: Progress { nodes, uses },
    } = made;
    let a = as_truth(alloc, scene, at, nodes, ty, part)?;
    Ok(Made {
        part: Part { tree: a.tree, at },
        progress: Progress {
            nodes: a.nodes,
            uses,
        },
    })
}

/// What an operator answers that stands alone for a form, which has to be a truth value: LIKE, and IN
/// of one member.
pub fn judged(alloc: Global, scene: &Scene<'_>, at: u64, made: Made) -> Result<Made, Refusal>
    requires scene { IsScene scene.now }
    requires source { IsSource scene.now.c made.part.tree }
    ensures value { OrMemory is_memory (spec.judged scene.now at made) result }
    ensures source { IfOk result (λ m. IsSource scene.now.c m.part.tree) }
{
    match bool_type(scene.catalog(), at) {
        Ok(ty) => judged_as(alloc, scene, at, made, ty),
        Err(_) => refused(Code::NotBoolean, at),
    }
}

/// The operator of [NOT] LIKE or [NOT] ILIKE.
pub fn like_operator(negated: bool, any_case: bool) -> &'static str
    ensures { result.now ≡ spec.like_operator negated any_case }
{
    match (negated, any_case) {
        (false, false) => "~~",
        (true, false) => "!~~",
        (false, true) => "~~*",
        (true, true) => "!~~*",
    }
}

/// [NOT] LIKE, or ILIKE where `any_case`, over the text and the pattern, beside trees of `before`
/// nodes.
pub fn liked(
    alloc: Global,
    scene: &Scene<'_>,
    negated: bool,
    any_case: bool,
    at: u64,
    before: u64,
    operands: Gathered,
) -> Result<Made, Refusal>
    requires scene { IsScene scene.now }
    requires sources { AreSources scene.now.c operands.parts }
    requires few { length operands.parts ≤ 2 }
    ensures value { OrMemory is_memory (spec.liked scene.now negated any_case at before operands) result }
    ensures source { IfOk result (λ m. IsSource scene.now.c m.part.tree) }
{
    let name = like_operator(negated, any_case);
    match operated(alloc, scene, at, name, before, operands) {
        Ok(made) => judged(alloc, scene, at, made),
        Err(refusal) => Err(refusal),
    }
}
