//! Whether a function is as its body says.
ghost use Rattle.std.specs.Prelude.{◌≡◌, ◌<◌, length, map};
ghost use Rattle.std.specs.List.{All};
ghost use Rattle.xp_catalog.specs.Known.{IsKnownFunc};
ghost use Rattle.xp_bodies.specs.Fits.{agrees, are_named, fits, is_as_loose, is_named};
ghost use Rattle.xp_bodies.specs.Row.{row_of};

use crate::BodySig;
use crate::table::row_at;
use xp_base::TypeNo;
use xp_catalog::{Catalog, FuncRow, Volatility};

/// Whether a function of volatility `found` may have a body of volatility `own`.
fn is_as_loose(found: Volatility, own: Volatility) -> bool
    ensures { result ≡ is_as_loose found own }
{
    match own {
        Volatility::Immutable => true,
        Volatility::Stable => found != Volatility::Immutable,
        Volatility::Volatile => found == Volatility::Volatile,
    }
}

fn is_named(c: &Catalog, t: TypeNo, name: &str) -> bool
    requires { t.0 < length c.now.types }
    ensures { result ≡ is_named c.now t name.now }
{
    c.type_row(t).name.as_str() == name
}

/// Whether the types have these names, in order.
fn are_named(c: &Catalog, types: &[TypeNo], names: &[&str]) -> bool
    requires { All (λ t. t.0 < length c.now.types) types.now }
    ensures { result ≡ are_named c.now types.now (map (λ name. name.now) names.now) }
{
    if types.len() != names.len() {
        return false;
    }
    for (i, t) in types.iter().enumerate() {
        if !is_named(c, *t, names[i]) {
            return false;
        }
    }
    true
}

fn agrees(c: &Catalog, f: &FuncRow, body: &BodySig) -> bool
    requires { IsKnownFunc c.now f.now }
    ensures { result ≡ agrees c.now f.now (row_of body.now) }
{
    f.variadic == body.variadic
        && f.strict == body.strict
        && is_as_loose(f.volatility, body.volatility)
        && is_named(c, f.result, body.result)
        && are_named(c, f.args.as_slice(), body.args)
}

/// Whether the function's arguments, variadic, result and strict are its body's, and its volatility
/// is at least as loose. A function without a body fits, and one with a number that is no body's
/// doesn't.
pub fn fits(c: &Catalog, f: &FuncRow) -> bool
    requires { IsKnownFunc c.now f.now }
    ensures { result ≡ fits c.now f.now }
{
    match f.body {
        None => true,
        Some(body) => match row_at(body) {
            Some(row) => agrees(c, f, &row),
            None => false,
        },
    }
}
