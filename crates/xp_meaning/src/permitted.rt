//! What is permitted of trees beside their outcome from left to right.
ghost use Rattle.xp_meaning.specs.Permitted.{EarlyIsPermitted, EarlyOfAllIsPermitted, LeftIsPermitted, LeftOfAllIsPermitted};

/// A law: of every tree the outcome from left to right is permitted, and where it is a value no other
/// value is; the first error of the early parts is permitted at every row (manual 4.2.14).
#[tactic(auto, using(crate::proofs::Laws::left_permitted, crate::proofs::Laws::left_of_all_permitted, crate::proofs::Laws::early_permitted, crate::proofs::Laws::early_of_all_permitted))]
pub fn permitted_outcomes()
    ensures left { LeftIsPermitted }
    ensures left_of_all { LeftOfAllIsPermitted }
    ensures early { EarlyIsPermitted }
    ensures early_of_all { EarlyOfAllIsPermitted }
{}
