//! What is answered for a case.
ghost use Rattle.xp_bodies.specs.Fits.{IsFitted};
ghost use Rattle.xp_coerce.specs.Asked.{AreTruths};

use crate::nodes::tree_text;
use crate::sources::source;
use crate::targets::{name_of, target};
use anyhow::{Result, bail, ensure};
use std::alloc::Global;
use xp_base::TypeNo;
use xp_cases::Answers;
use xp_catalog::{Catalog, Context};
use xp_coerce::{CoerceFault, coerce};
use xp_named::takes_modifier;
use xp_tree::{Checks, Modifier};

/// The cases over a catalogue, whose domains have these checks.
#[derive(Drop)]
pub struct Cases {
    pub catalogue: Catalog,
    pub checks: Checks,
    ghost fitted: { IsFitted catalogue },
    ghost truths: { AreTruths checks },
}

fn fault_text(alloc: Global, c: &Catalog, fault: CoerceFault) -> Result<String> {
    match fault {
        CoerceFault::CannotCoerce { from, to } => {
            ensure!(from.0 < c.counts().types, "no type of the catalogue");
            ensure!(to.0 < c.counts().types, "no type of the catalogue");
            let (from, to) = (name_of(c, from), name_of(c, to));
            Ok(format!(in alloc; "cannot coerce {from} to {to}")?)
        }
        CoerceFault::BadLiteral { code } => {
            let (state, word) = (code.state(), code.word());
            Ok(format!(in alloc; "bad literal {state} {word}")?)
        }
        CoerceFault::Memory => bail!("out of memory"),
    }
}

/// The tree that the source becomes in one context.
fn converted(
    alloc: Global,
    cases: &Cases,
    text: &str,
    ty: TypeNo,
    modifier: Modifier,
    context: Context,
) -> Result<String> {
    let c = &cases.catalogue;
    let tree = source(alloc, c, text)?;
    ensure!(ty.0 < c.counts().types, "no type of the catalogue");
    ensure!(
        takes_modifier(c, ty, modifier),
        "not a modifier of the type"
    );
    match coerce(alloc, c, &cases.checks, tree, ty, modifier, context) {
        Ok(tree) => tree_text(alloc, c, &tree),
        Err(fault) => fault_text(alloc, c, fault),
    }
}

/// The trees that the source becomes in implicit, assignment and explicit context.
fn coerced(alloc: Global, cases: &Cases, text: &str) -> Result<String> {
    let Some((from, to)) = text.split_once(" to ") else {
        bail!("a source and a type are wanted");
    };
    let (ty, modifier) = target(&cases.catalogue, to)?;
    let implicit = converted(alloc, cases, from, ty, modifier, Context::Implicit)?;
    let assignment = converted(alloc, cases, from, ty, modifier, Context::Assignment)?;
    let explicit = converted(alloc, cases, from, ty, modifier, Context::Explicit)?;
    Ok(format!(in alloc; "{implicit}\n  {assignment}\n  {explicit}")?)
}

/// Whether the type takes the modifier.
fn takes(alloc: Global, c: &Catalog, text: &str) -> Result<String> {
    let (ty, modifier) = target(c, text)?;
    ensure!(ty.0 < c.counts().types, "no type of the catalogue");
    let word = if takes_modifier(c, ty, modifier) {
        "yes"
    } else {
        "no"
    };
    Ok(format!(in alloc; "{word}")?)
}

impl Answers for Cases {
    fn answer(&self, alloc: Global, case: &str) -> Result<String> {
        let (word, text) = case.split_once(' ').unwrap_or((case, ""));
        match word {
            "coerce" => coerced(alloc, self, text),
            "takes" => takes(alloc, &self.catalogue, text),
            _ => bail!("no such word"),
        }
    }
}
