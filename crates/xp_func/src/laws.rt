//! What follows from the definition of a pick alone.
ghost use Rattle.std.specs.Prelude.{◌≡◌, IfOk, false, length};
ghost use Rattle.std.specs.Str.{bytes_eq};
ghost use Rattle.xp_catalog.specs.Contents.{added};
ghost use Rattle.xp_candidates.specs.Chosen.{IfAmbiguous};
ghost use Rattle.xp_func.specs.Picked.{AreLeftOf, IsListed, picked_function};

use xp_base::TypeNo;
use xp_catalog::{Catalog, FuncRow, Record};

/// A function that is picked is one of the candidates of that name for that many arguments. Two that
/// are told are two of them that are left.
pub fn a_candidate_is_picked(c: &Catalog, name: &str, inputs: &[TypeNo], variadic: bool)
    ensures picked { IfOk (picked_function c.now name.now inputs.now variadic) (IsListed c.now name.now (length inputs.now) variadic) }
    ensures ambiguous { IfAmbiguous (picked_function c.now name.now inputs.now variadic) (AreLeftOf c.now name.now inputs.now variadic) }
{}

/// One more function of another name changes no pick.
pub fn other_functions_change_nothing(
    c: &Catalog,
    name: &str,
    inputs: &[TypeNo],
    variadic: bool,
    func: FuncRow,
)
    requires { bytes_eq func.name name.now ≡ false }
    ensures { picked_function (added c.now (Record.Function func)) name.now inputs.now variadic ≡ picked_function c.now name.now inputs.now variadic }
{}
