//! What follows from the definition of a pick alone.
ghost use Rattle.std.specs.Prelude.{◌≡◌, IfOk, false, length};
ghost use Rattle.std.specs.Str.{bytes_eq};
ghost use Rattle.xp_catalog.specs.Contents.{added};
ghost use Rattle.xp_candidates.specs.Chosen.{IfAmbiguous};
ghost use Rattle.xp_oper.specs.Picked.{AreLeftOf, IsListed, picked_operator};

use xp_base::TypeNo;
use xp_catalog::{Catalog, OperRow, Record};

/// What is picked is one of the operators of that name over that many operands. Two that are told
/// are two of them that the steps leave.
pub fn a_candidate_is_picked(c: &Catalog, name: &str, inputs: &[TypeNo])
    ensures picked { IfOk (picked_operator c.now name.now inputs.now) (IsListed c.now name.now (length inputs.now)) }
    ensures ambiguous { IfAmbiguous (picked_operator c.now name.now inputs.now) (AreLeftOf c.now name.now inputs.now) }
{}

/// One more operator of another name changes no pick.
pub fn other_operators_change_nothing(c: &Catalog, name: &str, inputs: &[TypeNo], oper: OperRow)
    requires { bytes_eq oper.name name.now ≡ false }
    ensures { picked_operator (added c.now (Record.Operator oper)) name.now inputs.now ≡ picked_operator c.now name.now inputs.now }
{}
