//! The trees that are converted.
ghost use Rattle.std.specs.Prelude.{IfOk};
ghost use Rattle.xp_coerce.specs.Asked.{IsSource};

use crate::targets::named;
use anyhow::{Result, bail, ensure};
use std::alloc::Global;
use xp_base::{Name, Txt, VALUE_LIMIT};
use xp_catalog::Catalog;
use xp_coerce::{literal, node_type, null};
use xp_tree::Tree;
use xp_types::is_known;

fn column(alloc: Global, c: &Catalog, name: &str) -> Result<Tree>
    ensures { IfOk result (IsSource c.now) }
{
    let ty = named(c, name)?;
    ensure!(is_known(ty), "a column has a type");
    Ok(Tree::make_column(alloc, 0, Name::from_str(alloc, "x")?, node_type(c, ty))?)
}

fn literal_of(alloc: Global, c: &Catalog, text: &str) -> Result<Tree>
    ensures { IfOk result (IsSource c.now) }
{
    ensure!(
        text.len() <= VALUE_LIMIT as usize,
        "the literal is too long"
    );
    Ok(literal(alloc, c, Txt::from_str(alloc, text)?)?)
}

/// `column TYPE`, `literal TEXT` or `null`.
pub fn source(alloc: Global, c: &Catalog, text: &str) -> Result<Tree>
    ensures { IfOk result (IsSource c.now) }
{
    let (word, rest) = text.split_once(' ').unwrap_or((text, ""));
    match word {
        "column" => column(alloc, c, rest),
        "literal" => literal_of(alloc, c, rest),
        "null" => Ok(null(alloc, c)?),
        _ => bail!("no such source"),
    }
}
