//! The operands of a form, gathered from left to right, and what stands over them.
ghost use Rattle.std.specs.Prelude.{◌≡◌, ◌≤◌, ◌+◌, ◌++◌, ◌∷◌, [], ℕ, IfOk, Ok, Result, false, length, true};
ghost use Rattle.xp_base.specs.FromLeft.{and_then};
ghost use Rattle.xp_base.specs.OrMemory.{OrMemory};
ghost use Rattle.xp_catalog.specs.Contents.{Contents};
ghost use Rattle.xp_coerce.specs.Asked.{IsSource};
ghost use Rattle.xp_named.specs.declared.refusal.Refusal.{Refusal};
ghost use Rattle.xp_resolve.specs.declared.made.Gathered.{Gathered};
ghost use Rattle.xp_resolve.specs.declared.made.Made.{Made};
ghost use Rattle.xp_resolve.specs.declared.order.Order.TheVariants.{AsWritten, Swapped};
ghost use Rattle.xp_resolve.specs.inner.Sources.{AreSources, IsScene};
ghost use Rattle.xp_resolve.specs.Calls.{called};
ghost use Rattle.xp_resolve.specs.Literals.{number, text_literal};
ghost use Rattle.xp_resolve.specs.Made.{is_memory};
ghost use Rattle.xp_resolve.specs.Operators.{operated};
ghost use Rattle.xp_expressions.specs.Operands as spec;
ghost use Rattle.xp_expressions.specs.Words.{one as one_number, trim_name};

use sqlite_items::Items;
use std::alloc::Global;
use xp_base::{Dec, Memory, Span};
use xp_grammar::Side;
use xp_resolve::{
    Gathered, Made, Order, Parts, Progress, Refusal, Scene, called, number, operated, push,
    text_literal,
};

/// Nothing is made yet.
pub fn nothing_yet(alloc: Global) -> Progress
    ensures { result ≡ spec.nothing_yet }
{
    Progress {
        nodes: 0,
        uses: Items::new(alloc),
    }
}

/// No operands yet.
pub fn begun(alloc: Global, progress: Progress) -> Gathered
    ensures { result ≡ spec.begun progress }
{
    Gathered {
        parts: Items::new(alloc),
        progress,
    }
}

fn with_last(parts: Parts, made: Made) -> Result<Gathered, Memory>
    ensures { IfOk result (λ g. g ≡ record { parts = parts ++ made.part ∷ []; progress = made.progress }) }
{
    let Made { part, progress } = made;
    let mut parts = parts;
    push(&mut parts, part)?;
    Ok(Gathered { parts, progress })
}

/// What is made of an operand, behind those before it.
pub fn with_made(parts: Parts, made: Result<Made, Refusal>) -> Result<Gathered, Refusal>
    ensures value { (said : Result Made Refusal) → OrMemory is_memory said made
        → OrMemory is_memory (and_then said (λ m. Ok (record { parts = parts ++ m.part ∷ []; progress = m.progress }))) result }
    ensures sources { (c : Contents) → AreSources c parts → IfOk made (λ m. IsSource c m.part.tree) → IfOk result (λ g. AreSources c g.parts) }
    ensures count { IfOk result (λ g. length g.parts ≡ length parts + 1) }
{
    match made {
        Ok(made) => Ok(with_last(parts, made)?),
        Err(refusal) => Err(refusal),
    }
}

fn one() -> Dec
    ensures { result ≡ one_number }
{
    Dec {
        neg: false,
        coef: 1,
        scale: 0,
    }
}

/// The 1 that stands for a place that is left out, behind the operands before it.
pub fn with_one(
    alloc: Global,
    scene: &Scene<'_>,
    at: Span,
    before: Result<Gathered, Refusal>,
) -> Result<Gathered, Refusal>
    requires sources { IfOk before (λ g. AreSources scene.now.c g.parts) }
    ensures value { (said : Result Gathered Refusal) → OrMemory is_memory said before
        → OrMemory is_memory (and_then said (spec.with_operand (number scene.now at.start one_number true))) result }
    ensures sources { IfOk result (λ g. AreSources scene.now.c g.parts) }
{
    match before {
        Ok(before) => {
            let at = u64::from(at.start);
            let made = number(alloc, scene, at, one(), true, before.progress);
            with_made(before.parts, made)
        }
        Err(refusal) => Err(refusal),
    }
}

/// A string constant as the first operand.
pub fn with_text(
    alloc: Global,
    scene: &Scene<'_>,
    at: Span,
    text: &str,
    progress: Progress,
) -> Result<Gathered, Refusal>
    ensures value { OrMemory is_memory (spec.with_operand (text_literal scene.now at.start text.now) (spec.begun progress)) result }
    ensures sources { IfOk result (λ g. AreSources scene.now.c g.parts) }
{
    let at = u64::from(at.start);
    let made = text_literal(alloc, scene, at, text, progress);
    with_made(Items::new(alloc), made)
}

/// The operator of that name over operands, beside trees of `nodes` nodes.
pub fn over_operands(
    alloc: Global,
    scene: &Scene<'_>,
    at: Span,
    name: &str,
    nodes: u64,
    operands: Result<Gathered, Refusal>,
) -> Result<Made, Refusal>
    requires scene { IsScene scene.now }
    requires sources { IfOk operands (λ g. AreSources scene.now.c g.parts) }
    requires few { IfOk operands (λ g. length g.parts ≤ 2) }
    ensures value { (said : Result Gathered Refusal) → OrMemory is_memory said operands → OrMemory is_memory (and_then said (operated scene.now at.start name.now nodes)) result }
    ensures source { IfOk result (λ m. IsSource scene.now.c m.part.tree) }
{
    match operands {
        Ok(operands) => operated(alloc, scene, u64::from(at.start), name, nodes, operands),
        Err(refusal) => Err(refusal),
    }
}

/// The call of the function of that name over arguments, beside trees of `nodes` nodes.
pub fn over_arguments(
    alloc: Global,
    scene: &Scene<'_>,
    order: Order,
    at: Span,
    name: &str,
    variadic: bool,
    nodes: u64,
    args: Result<Gathered, Refusal>,
) -> Result<Made, Refusal>
    requires scene { IsScene scene.now }
    requires sources { IfOk args (λ g. AreSources scene.now.c g.parts) }
    ensures value { (said : Result Gathered Refusal) → OrMemory is_memory said args → OrMemory is_memory (and_then said (called scene.now order at.start name.now variadic nodes)) result }
    ensures source { IfOk result (λ m. IsSource scene.now.c m.part.tree) }
{
    let at = u64::from(at.start);
    match args {
        Ok(args) => called(alloc, scene, order, at, name, variadic, nodes, args),
        Err(refusal) => Err(refusal),
    }
}

/// A call by words, whose arguments are written in their order.
pub fn over_written(
    alloc: Global,
    scene: &Scene<'_>,
    at: Span,
    name: &str,
    nodes: u64,
    args: Result<Gathered, Refusal>,
) -> Result<Made, Refusal>
    requires scene { IsScene scene.now }
    requires sources { IfOk args (λ g. AreSources scene.now.c g.parts) }
    ensures value { (said : Result Gathered Refusal) → OrMemory is_memory said args → OrMemory is_memory (and_then said (called scene.now AsWritten at.start name.now false nodes)) result }
    ensures source { IfOk result (λ m. IsSource scene.now.c m.part.tree) }
{
    over_arguments(alloc, scene, Order::AsWritten, at, name, false, nodes, args)
}

/// A call by words, whose second argument is written first.
pub fn over_swapped(
    alloc: Global,
    scene: &Scene<'_>,
    at: Span,
    name: &str,
    nodes: u64,
    args: Result<Gathered, Refusal>,
) -> Result<Made, Refusal>
    requires scene { IsScene scene.now }
    requires sources { IfOk args (λ g. AreSources scene.now.c g.parts) }
    ensures value { (said : Result Gathered Refusal) → OrMemory is_memory said args → OrMemory is_memory (and_then said (called scene.now Swapped at.start name.now false nodes)) result }
    ensures source { IfOk result (λ m. IsSource scene.now.c m.part.tree) }
{
    over_arguments(alloc, scene, Order::Swapped, at, name, false, nodes, args)
}

/// The function that TRIM calls; without a side it is BOTH.
pub fn trim_name(side: Option<Side>) -> &'static str
    ensures { result.now ≡ trim_name side }
{
    match side {
        None | Some(Side::Both) => "btrim",
        Some(Side::Leading) => "ltrim",
        Some(Side::Trailing) => "rtrim",
    }
}
