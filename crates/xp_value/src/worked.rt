//! Which values a representation has, computed from the definition alone.
ghost use Rattle.std.specs.Prelude.{◌≡◌, [], ◌∷◌, codes, false, negsuc, pos, true};
ghost use Rattle.xp_value.specs.Representation.{array_of, is_of, plain};

use crate::value::{Range, RangeKind, Rep, Value};

/// A law: worked rows of the definition of representations.
#[tactic(auto, using(crate::proofs::Rows::array_is_of))]
pub fn worked_representations()
    ensures null { is_of (plain Rep.Int2) Value.Null ≡ true }
    ensures int2_least { is_of (plain Rep.Int2) (Value.Int (negsuc 32767)) ≡ true }
    ensures int2_below { is_of (plain Rep.Int2) (Value.Int (negsuc 32768)) ≡ false }
    ensures int2_above { is_of (plain Rep.Int2) (Value.Int (pos 32768)) ≡ false }
    ensures int4_greatest { is_of (plain Rep.Int4) (Value.Int (pos 2147483647)) ≡ true }
    ensures not_text { is_of (plain Rep.Text) (Value.Int (pos 1)) ≡ false }
    ensures not_padded { is_of (plain Rep.Text) (Value.Pad (codes "a ")) ≡ false }
    ensures last_day { is_of (plain Rep.Day) (Value.Day (pos 2932896)) ≡ true }
    ensures year_10000 { is_of (plain Rep.Day) (Value.Day (pos 2932897)) ≡ false }
    ensures elements { is_of (array_of (plain Rep.Int2)) (Value.Arr (Value.Int (pos 1) ∷ Value.Null ∷ [])) ≡ true }
    ensures other_elements { is_of (array_of (plain Rep.Bool)) (Value.Arr (Value.Int (pos 1) ∷ [])) ≡ false }
    ensures range { is_of (plain Rep.Int4Range) (Value.Rng (Range.Bounds (Some (pos 1)) None RangeKind.Int4)) ≡ true }
    ensures crossed { is_of (plain Rep.Int4Range) (Value.Rng (Range.Bounds (Some (pos 2)) (Some (pos 2)) RangeKind.Int4)) ≡ false }
    ensures other_kind { is_of (plain Rep.Int4Range) (Value.Rng (Range.Empty RangeKind.Day)) ≡ false }
{}
