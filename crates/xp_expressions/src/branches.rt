//! The arms of CASE, and CASE over them (manual 9.18.1).
ghost use Rattle.std.specs.Prelude.{◌≡◌, IfOk, Ok, Result};
ghost use Rattle.xp_base.specs.FromLeft.{and_then};
ghost use Rattle.xp_base.specs.OrMemory.{OrMemory};
ghost use Rattle.xp_catalog.specs.Contents.{Contents};
ghost use Rattle.xp_coerce.specs.Asked.{IsSource};
ghost use Rattle.xp_named.specs.declared.refusal.Refusal.{Refusal};
ghost use Rattle.xp_resolve.specs.declared.made.Made.{Made};
ghost use Rattle.xp_resolve.specs.inner.Sources.{IsScene};
ghost use Rattle.xp_resolve.specs.Made.{is_memory};
ghost use Rattle.xp_forms.specs.Cases.{cased as cased_over};
ghost use Rattle.xp_forms.specs.inner.Arms.{AreResolved, IsResolved};
ghost use Rattle.xp_expressions.specs.declared.branches.ArmMade.{ArmMade};
ghost use Rattle.xp_expressions.specs.Branches as spec;

use sqlite_items::Items;
use std::alloc::Global;
use xp_base::{Memory, Span};
use xp_forms::{When, Whens, cased};
use xp_resolve::{Made, Part, Progress, Refusal, Scene, push};

/// An arm that is resolved, and what is made so far with it.
#[derive(Drop)]
pub struct ArmMade {
    pub when: When,
    pub progress: Progress,
}

/// Arms that are resolved, and what is made so far with them.
#[derive(Drop)]
pub struct ArmsMade {
    pub whens: Whens,
    pub progress: Progress,
}

/// No arms yet.
pub fn no_arms(alloc: Global, progress: Progress) -> ArmsMade
    ensures { result ≡ spec.no_arms progress }
{
    ArmsMade {
        whens: Items::new(alloc),
        progress,
    }
}

/// The arm of that condition.
pub fn arm_of(at: Span, condition: Part, gives: Result<Made, Refusal>) -> Result<ArmMade, Refusal>
    ensures value { (said : Result Made Refusal) → OrMemory is_memory said gives → OrMemory is_memory (and_then said (λ g. Ok (spec.arm_over at condition g))) result }
    ensures resolved { (c : Contents) → IsSource c condition.tree → IfOk gives (λ g. IsSource c g.part.tree) → IfOk result (λ m. IsResolved c m.when) }
{
    match gives {
        Ok(gives) => Ok(ArmMade {
            when: When {
                at: u64::from(at.start),
                condition,
                result: gives.part,
            },
            progress: gives.progress,
        }),
        Err(refusal) => Err(refusal),
    }
}

fn with_last(whens: Whens, made: ArmMade) -> Result<ArmsMade, Memory>
    ensures { IfOk result (λ all. all ≡ spec.with_last_arm whens made) }
{
    let ArmMade { when, progress } = made;
    let mut whens = whens;
    push(&mut whens, when)?;
    Ok(ArmsMade { whens, progress })
}

/// What is made of an arm, behind those before it.
pub fn with_when(whens: Whens, made: Result<ArmMade, Refusal>) -> Result<ArmsMade, Refusal>
    ensures value { (said : Result ArmMade Refusal) → OrMemory is_memory said made → OrMemory is_memory (and_then said (λ m. Ok (spec.with_last_arm whens m))) result }
    ensures resolved { (c : Contents) → AreResolved c whens → IfOk made (λ m. IsResolved c m.when) → IfOk result (λ all. AreResolved c all.whens) }
{
    match made {
        Ok(made) => Ok(with_last(whens, made)?),
        Err(refusal) => Err(refusal),
    }
}

/// CASE over its arms and what stands behind ELSE, beside trees of `nodes` nodes.
pub fn case_over(
    alloc: Global,
    scene: &Scene<'_>,
    at: Span,
    nodes: u64,
    whens: Whens,
    otherwise: Result<Made, Refusal>,
) -> Result<Made, Refusal>
    requires scene { IsScene scene.now }
    requires resolved { AreResolved scene.now.c whens }
    requires otherwise { IfOk otherwise (λ m. IsSource scene.now.c m.part.tree) }
    ensures value { (said : Result Made Refusal) → OrMemory is_memory said otherwise → OrMemory is_memory (and_then said (cased_over scene.now at.start nodes whens)) result }
    ensures source { IfOk result (λ m. IsSource scene.now.c m.part.tree) }
{
    match otherwise {
        Ok(otherwise) => cased(alloc, scene, u64::from(at.start), nodes, whens, otherwise),
        Err(refusal) => Err(refusal),
    }
}
