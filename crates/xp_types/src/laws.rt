//! What follows from the definition of paths alone.
ghost use Rattle.std.specs.Prelude.{◌≡◌, IfSome, None, true, false};
ghost use Rattle.xp_catalog.specs.Contents.{added};
ghost use Rattle.xp_types.specs.Readers.{element, is_known};
ghost use Rattle.xp_types.specs.Paths.{path};
ghost use Rattle.xp_types.specs.MoreCasts.{IsElsewhere};
ghost use Rattle.xp_types.specs.declared.paths.PathKind.TheVariants.{Literal, Same};

use xp_base::TypeNo;
use xp_catalog::{CastRow, Catalog, Context, Record};

/// A literal is read as whatever type is wanted, and a known type has the path to itself.
pub fn literal_and_same(c: &Catalog, s: TypeNo, t: TypeNo, context: Context)
    ensures literal { is_known s ≡ false → path c.now s t context ≡ Literal }
    ensures same { is_known s ≡ true → path c.now s s context ≡ Same }
{}

/// One more cast changes no path but those from a type over its source to a type over its target,
/// and those between arrays of such types. A type is over itself, and a domain over its base type.
pub fn other_casts_change_nothing(
    c: &Catalog,
    cast: CastRow,
    s: TypeNo,
    t: TypeNo,
    context: Context,
)
    requires { IsElsewhere c.now cast s t }
    ensures { path (added c.now (Record.Cast cast)) s t context ≡ path c.now s t context }
{}

/// The elements of arrays are no arrays themselves.
pub fn elements_are_no_arrays(c: &Catalog, ty: TypeNo)
    ensures { IfSome (element c.now ty) (λ type. element c.now type ≡ None) }
{
    // no record gives an array over an array
    c.is_well_formed_law();
}
