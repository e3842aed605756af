//! Laws of the definitions.
ghost use Rattle.std.specs.Prelude.{◌≡◌, ◌+ℤ◌, ◌*ℤ◌, Ok, int_div, int_rem};
ghost use Rattle.xp_base.specs.declared.decimal.Dec.{Dec};
ghost use Rattle.xp_numeric.specs.Arithmetic.{common};
ghost use Rattle.xp_numeric.specs.Numbers.{at};
ghost use Rattle.xp_numeric.specs.Texts.{numeral, text};

/// A law: what is written of a number is read as that number, with its scale.
pub fn texts_are_read_back()
    ensures { (x : Dec) → numeral (text x) ≡ Ok x }
{}

/// A law: the units of a remainder are what is left of a number when the divisor is taken from it
/// as often as the whole quotient says.
pub fn remainder_is_the_rest()
    ensures { (x y : Dec) →
        let s = common x y in
        int_div (at s x) (at s y) *ℤ at s y +ℤ int_rem (at s x) (at s y) ≡ at s x }
{}
