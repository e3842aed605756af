//! Connectives, tests, comparisons, LIKE, selections, ARRAY and subscripts over operands that are resolved
//! (manual 4.2.3, 4.2.12, 9.1, 9.2, 9.18, 10.5). A refusal of an operand is handed on.
ghost use Rattle.std.specs.Prelude.{◌≡◌, ◌≤◌, IfOk, Ok, Result, length};
ghost use Rattle.xp_base.specs.FromLeft.{and_then};
ghost use Rattle.xp_base.specs.OrMemory.{OrMemory};
ghost use Rattle.xp_catalog.specs.Contents.{Contents};
ghost use Rattle.xp_coerce.specs.Asked.{IsSource};
ghost use Rattle.xp_named.specs.declared.refusal.Refusal.{Refusal};
ghost use Rattle.xp_resolve.specs.declared.made.Gathered.{Gathered};
ghost use Rattle.xp_resolve.specs.declared.made.Made.{Made};
ghost use Rattle.xp_resolve.specs.inner.Sources.{AreSources, IsScene};
ghost use Rattle.xp_resolve.specs.Made.{is_memory};
ghost use Rattle.xp_forms.specs.declared.operands.Both.{Both};
ghost use Rattle.xp_forms.specs.Arrays as arrays;
ghost use Rattle.xp_forms.specs.Connectives as connectives;
ghost use Rattle.xp_forms.specs.Distinct as comparisons;
ghost use Rattle.xp_forms.specs.Rewritten as rewritten;
ghost use Rattle.xp_forms.specs.Tests as tests;
ghost use Rattle.xp_expressions.specs.Composed as spec;
ghost use Rattle.xp_expressions.specs.Operands as operands_spec;

use std::alloc::Global;
use xp_base::{Code, Span};
use xp_forms::{
    Both, Connective, array_made, connected, distinct, judged, liked, negated,
    null_if as null_if_over, selected, subscripted, tested,
};
use xp_grammar::{Selection, TruthTest};
use xp_resolve::{Gathered, Made, Part, Refusal, Scene, refused};

/// What is made of the right operand, beside the left one.
pub fn beside(left: Part, right: Result<Made, Refusal>) -> Result<Both, Refusal>
    ensures value { (said : Result Made Refusal) → OrMemory is_memory said right → OrMemory is_memory (and_then said (λ r. Ok (operands_spec.beside left r))) result }
    ensures left { IfOk result (λ b. b.left ≡ left) }
    ensures right { (c : Contents) → IfOk right (λ r. IsSource c r.part.tree) → IfOk result (λ b. IsSource c b.right.tree) }
{
    match right {
        Ok(right) => Ok(Both {
            left,
            right: right.part,
            progress: right.progress,
        }),
        Err(refusal) => Err(refusal),
    }
}

/// AND or OR, beside trees of `nodes` nodes.
pub fn connective(
    alloc: Global,
    scene: &Scene<'_>,
    at: Span,
    which: Connective,
    nodes: u64,
    operands: Result<Both, Refusal>,
) -> Result<Made, Refusal>
    requires scene { IsScene scene.now }
    requires left { IfOk operands (λ b. IsSource scene.now.c b.left.tree) }
    requires right { IfOk operands (λ b. IsSource scene.now.c b.right.tree) }
    ensures value { (said : Result Both Refusal) → OrMemory is_memory said operands → OrMemory is_memory (and_then said (connectives.connected scene.now which at.start nodes)) result }
    ensures source { IfOk result (λ m. IsSource scene.now.c m.part.tree) }
{
    match operands {
        Ok(operands) => connected(alloc, scene, which, u64::from(at.start), nodes, operands),
        Err(refusal) => Err(refusal),
    }
}

/// NOT, beside trees of `nodes` nodes.
pub fn negation(
    alloc: Global,
    scene: &Scene<'_>,
    at: Span,
    nodes: u64,
    operand: Result<Made, Refusal>,
) -> Result<Made, Refusal>
    requires scene { IsScene scene.now }
    requires source { IfOk operand (λ m. IsSource scene.now.c m.part.tree) }
    ensures value { (said : Result Made Refusal) → OrMemory is_memory said operand → OrMemory is_memory (and_then said (connectives.negated scene.now at.start nodes)) result }
    ensures source { IfOk result (λ m. IsSource scene.now.c m.part.tree) }
{
    match operand {
        Ok(operand) => negated(alloc, scene, u64::from(at.start), nodes, operand),
        Err(refusal) => Err(refusal),
    }
}

/// IS [NOT] NULL, TRUE, FALSE or UNKNOWN, beside trees of `nodes` nodes.
pub fn test(
    alloc: Global,
    scene: &Scene<'_>,
    at: Span,
    which: TruthTest,
    not: bool,
    nodes: u64,
    operand: Result<Made, Refusal>,
) -> Result<Made, Refusal>
    requires scene { IsScene scene.now }
    requires source { IfOk operand (λ m. IsSource scene.now.c m.part.tree) }
    ensures value { (said : Result Made Refusal) → OrMemory is_memory said operand → OrMemory is_memory (and_then said (tests.tested scene.now which not at.start nodes)) result }
    ensures source { IfOk result (λ m. IsSource scene.now.c m.part.tree) }
{
    match operand {
        Ok(operand) => tested(
            alloc,
            scene,
            which,
            not,
            u64::from(at.start),
            nodes,
            operand,
        ),
        Err(refusal) => Err(refusal),
    }
}

/// IS [NOT] DISTINCT FROM, beside trees of `nodes` nodes.
pub fn distinction(
    alloc: Global,
    scene: &Scene<'_>,
    at: Span,
    not: bool,
    nodes: u64,
    operands: Result<Gathered, Refusal>,
) -> Result<Made, Refusal>
    requires scene { IsScene scene.now }
    requires sources { IfOk operands (λ g. AreSources scene.now.c g.parts) }
    requires two { IfOk operands (λ g. length g.parts ≡ 2) }
    ensures value { (said : Result Gathered Refusal) → OrMemory is_memory said operands → OrMemory is_memory (and_then said (comparisons.distinct scene.now not at.start nodes)) result }
    ensures source { IfOk result (λ m. IsSource scene.now.c m.part.tree) }
{
    match operands {
        Ok(operands) => distinct(alloc, scene, not, u64::from(at.start), nodes, operands),
        Err(refusal) => Err(refusal),
    }
}

/// NULLIF, beside trees of `nodes` nodes.
pub fn null_if(
    alloc: Global,
    scene: &Scene<'_>,
    at: Span,
    nodes: u64,
    operands: Result<Gathered, Refusal>,
) -> Result<Made, Refusal>
    requires scene { IsScene scene.now }
    requires sources { IfOk operands (λ g. AreSources scene.now.c g.parts) }
    requires two { IfOk operands (λ g. length g.parts ≡ 2) }
    ensures value { (said : Result Gathered Refusal) → OrMemory is_memory said operands → OrMemory is_memory (and_then said (comparisons.null_if scene.now at.start nodes)) result }
    ensures source { IfOk result (λ m. IsSource scene.now.c m.part.tree) }
{
    match operands {
        Ok(operands) => null_if_over(alloc, scene, u64::from(at.start), nodes, operands),
        Err(refusal) => Err(refusal),
    }
}

/// [NOT] LIKE, or ILIKE where `any_case`, beside trees of `nodes` nodes.
pub fn like(
    alloc: Global,
    scene: &Scene<'_>,
    at: Span,
    not: bool,
    any_case: bool,
    nodes: u64,
    operands: Result<Gathered, Refusal>,
) -> Result<Made, Refusal>
    requires scene { IsScene scene.now }
    requires sources { IfOk operands (λ g. AreSources scene.now.c g.parts) }
    requires two { IfOk operands (λ g. length g.parts ≡ 2) }
    ensures value { (said : Result Gathered Refusal) → OrMemory is_memory said operands → OrMemory is_memory (and_then said (rewritten.liked scene.now not any_case at.start nodes)) result }
    ensures source { IfOk result (λ m. IsSource scene.now.c m.part.tree) }
{
    match operands {
        Ok(operands) => liked(
            alloc,
            scene,
            not,
            any_case,
            u64::from(at.start),
            nodes,
            operands,
        ),
        Err(refusal) => Err(refusal),
    }
}

/// IN of one member, which stands for what its operator answers.
pub fn alone(
    alloc: Global,
    scene: &Scene<'_>,
    at: Span,
    pair: Result<Made, Refusal>,
) -> Result<Made, Refusal>
    requires scene { IsScene scene.now }
    requires source { IfOk pair (λ m. IsSource scene.now.c m.part.tree) }
    ensures value { (said : Result Made Refusal) → OrMemory is_memory said pair → OrMemory is_memory (and_then said (rewritten.judged scene.now at.start)) result }
    ensures source { IfOk result (λ m. IsSource scene.now.c m.part.tree) }
{
    match pair {
        Ok(pair) => judged(alloc, scene, u64::from(at.start), pair),
        Err(refusal) => Err(refusal),
    }
}

fn selection_of(
    alloc: Global,
    scene: &Scene<'_>,
    at: Span,
    which: Selection,
    nodes: u64,
    operands: Gathered,
) -> Result<Made, Refusal>
    requires scene { IsScene scene.now }
    requires sources { AreSources scene.now.c operands.parts }
    ensures value { OrMemory is_memory (spec.selection_of scene.now at which nodes operands operands.parts) result }
    ensures source { IfOk result (λ m. IsSource scene.now.c m.part.tree) }
{
    let at = u64::from(at.start);
    if operands.parts.as_slice().is_empty() {
        refused(Code::Undefined, at)
    } else {
        selected(alloc, scene, which, at, nodes, operands)
    }
}

/// COALESCE, GREATEST or LEAST, beside trees of `nodes` nodes.
pub fn selection(
    alloc: Global,
    scene: &Scene<'_>,
    at: Span,
    which: Selection,
    nodes: u64,
    operands: Result<Gathered, Refusal>,
) -> Result<Made, Refusal>
    requires scene { IsScene scene.now }
    requires sources { IfOk operands (λ g. AreSources scene.now.c g.parts) }
    ensures value { (said : Result Gathered Refusal) → OrMemory is_memory said operands → OrMemory is_memory (and_then said (λ g. spec.selection_of scene.now at which nodes g g.parts)) result }
    ensures source { IfOk result (λ m. IsSource scene.now.c m.part.tree) }
{
    match operands {
        Ok(operands) => selection_of(alloc, scene, at, which, nodes, operands),
        Err(refusal) => Err(refusal),
    }
}

fn array_of(
    alloc: Global,
    scene: &Scene<'_>,
    at: Span,
    nodes: u64,
    elements: Gathered,
) -> Result<Made, Refusal>
    requires scene { IsScene scene.now }
    requires sources { AreSources scene.now.c elements.parts }
    ensures value { OrMemory is_memory (spec.array_of scene.now at nodes elements elements.parts) result }
    ensures source { IfOk result (λ m. IsSource scene.now.c m.part.tree) }
{
    let at = u64::from(at.start);
    if elements.parts.as_slice().is_empty() {
        refused(Code::Indeterminate, at)
    } else {
        array_made(alloc, scene, at, nodes, elements)
    }
}

/// ARRAY that stands under no cast, beside trees of `nodes` nodes.
pub fn array(
    alloc: Global,
    scene: &Scene<'_>,
    at: Span,
    nodes: u64,
    elements: Result<Gathered, Refusal>,
) -> Result<Made, Refusal>
    requires scene { IsScene scene.now }
    requires sources { IfOk elements (λ g. AreSources scene.now.c g.parts) }
    ensures value { (said : Result Gathered Refusal) → OrMemory is_memory said elements → OrMemory is_memory (and_then said (λ g. spec.array_of scene.now at nodes g g.parts)) result }
    ensures source { IfOk result (λ m. IsSource scene.now.c m.part.tree) }
{
    match elements {
        Ok(elements) => array_of(alloc, scene, at, nodes, elements),
        Err(refusal) => Err(refusal),
    }
}

/// An element of an array, beside trees of `nodes` nodes.
pub fn subscript(
    alloc: Global,
    scene: &Scene<'_>,
    at: Span,
    nodes: u64,
    operands: Result<Both, Refusal>,
) -> Result<Made, Refusal>
    requires scene { IsScene scene.now }
    requires left { IfOk operands (λ b. IsSource scene.now.c b.left.tree) }
    requires right { IfOk operands (λ b. IsSource scene.now.c b.right.tree) }
    ensures value { (said : Result Both Refusal) → OrMemory is_memory said operands → OrMemory is_memory (and_then said (arrays.subscripted scene.now at.start nodes)) result }
    ensures source { IfOk result (λ m. IsSource scene.now.c m.part.tree) }
{
    match operands {
        Ok(operands) => subscripted(alloc, scene, u64::from(at.start), nodes, operands),
        Err(refusal) => Err(refusal),
    }
}
