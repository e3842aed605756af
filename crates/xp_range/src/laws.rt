//! Laws of the definitions: what they say of the points of ranges.
ghost use Rattle.std.specs.Prelude.{◌≡◌, ◌&&◌, ◌||◌, not, int_lt, ℕ, ℤ, Err, List, Ok, Option, Result, true};
ghost use Rattle.xp_base.specs.declared.codes.EvalError.{EvalError};
ghost use Rattle.xp_base.specs.declared.codes.EvalError.TheVariants.{RangeData};
ghost use Rattle.xp_range.specs.Bounds.{HasPoints, includes, lower_of, upper_of};
ghost use Rattle.xp_range.specs.Constructors.{lies_within, made};
ghost use Rattle.xp_range.specs.Relations.{before, contains, overlaps};
ghost use Rattle.xp_range.specs.Sets.{difference, intersection, union};
ghost use Rattle.xp_range.specs.Texts.{ReadsBack, range_in, text};
ghost use Rattle.xp_range.specs.declared.constructors.Flags.{Flags};
ghost use Rattle.xp_value.specs.Representation.{is_range};
ghost use Rattle.xp_value.specs.declared.value.Range.{Range};
ghost use Rattle.xp_value.specs.declared.value.RangeKind.{RangeKind};

/// A law: a range has the points that lie within the bounds that it was made of.
pub fn points_are_within_the_bounds()
    ensures { (k : RangeKind) (flags : Flags) (lower upper : Option ℤ) (r : Range) → made k flags lower upper ≡ Ok r → HasPoints r (lies_within flags lower upper) }
{}

/// A law: unions, intersections and differences are those of sets of points.
pub fn ranges_are_sets()
    ensures union { (a b r : Range) (k : RangeKind) → is_range k a ≡ true → is_range k b ≡ true → union a b ≡ Ok r → HasPoints r (λ p. includes a p || includes b p) }
    ensures intersection { (a b : Range) → HasPoints (intersection a b) (λ p. includes a p && includes b p) }
    ensures difference { (a b r : Range) → difference a b ≡ Ok r → HasPoints r (λ p. includes a p && not (includes b p)) }
{}

/// A law: where a union or a difference is refused, no range has its points.
pub fn what_is_refused_is_no_range()
    ensures union { (a b : Range) (k : RangeKind) → is_range k a ≡ true → is_range k b ≡ true → union a b ≡ Err RangeData → (r : Range) → HasPoints r (λ p. includes a p || includes b p) → ⊥ }
    ensures difference { (a b : Range) (k : RangeKind) → is_range k b ≡ true → difference a b ≡ Err RangeData → (r : Range) → HasPoints r (λ p. includes a p && not (includes b p)) → ⊥ }
{}

/// A law: a range that contains another has its points, ranges overlap where they have a point in
/// common, and of two ranges one of which is before the other no point is out of order.
pub fn relations_are_of_points()
    ensures contains { (a b : Range) (p : ℤ) → contains a b ≡ true → includes b p ≡ true → includes a p ≡ true }
    ensures overlap { (a b : Range) (k : RangeKind) → is_range k a ≡ true → is_range k b ≡ true → overlaps a b ≡ true → (p : ℤ) × ((includes a p && includes b p) ≡ true) }
    ensures common { (a b : Range) (p : ℤ) → includes a p ≡ true → includes b p ≡ true → overlaps a b ≡ true }
    ensures before { (a b : Range) (p q : ℤ) → before a b ≡ true → includes a p ≡ true → includes b q ≡ true → int_lt p q ≡ true }
{}

/// A law: what is written of a range is read as that range, where it is so of its bounds.
pub fn texts_are_read_back()
    ensures { (read : List ℕ → Result ℤ EvalError) (write : ℤ → List ℕ) (k : RangeKind) (range : Range) → is_range k range ≡ true → ReadsBack read write (lower_of range) → ReadsBack read write (upper_of range) → range_in read k (text write range) ≡ Ok range }
{}
