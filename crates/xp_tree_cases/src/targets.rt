//! Types by name, with a modifier or none.
ghost use Rattle.std.specs.Prelude.{IfOk};
ghost use Rattle.xp_types.specs.Within.{IsType};

use anyhow::{Result, bail, ensure};
use xp_base::TypeNo;
use xp_catalog::Catalog;
use xp_tree::Modifier;
use xp_types::UNKNOWN;

/// The type of that name, `unknown` among them.
pub fn named(c: &Catalog, name: &str) -> Result<TypeNo>
    ensures { IfOk result (IsType c.now) }
{
    if name == "unknown" {
        ensure!(0 < c.counts().types, "a catalogue without types");
        return Ok(UNKNOWN);
    }
    match c.type_named(name) {
        Some(ty) => Ok(ty),
        None => bail!("there is no type {name}"),
    }
}

pub fn name_of<'a>(c: &'a Catalog, ty: TypeNo) -> &'a str
    requires { IsType c.now ty }
{
    c.type_row(ty).name.as_str()
}

/// `N` or `P,S`.
fn modifier(text: &str) -> Result<Modifier> {
    match text.split_once(',') {
        Some((p, s)) => Ok(Modifier::Digits {
            p: p.parse()?,
            s: s.parse()?,
        }),
        None => Ok(Modifier::Length(text.parse()?)),
    }
}

/// `TYPE`, or `TYPE (MODIFIER)`.
pub fn target(c: &Catalog, text: &str) -> Result<(TypeNo, Modifier)> {
    match text.split_once(" (") {
        Some((name, rest)) => match rest.strip_suffix(')') {
            Some(inner) => Ok((named(c, name)?, modifier(inner)?)),
            None => bail!("a modifier is wanted"),
        },
        None => Ok((named(c, text)?, Modifier::None)),
    }
}
