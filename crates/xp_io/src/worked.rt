//! Worked rows of text forms, computed from the definitions alone.
ghost use Rattle.std.specs.Prelude.{◌≡◌, codes, false, negsuc, pos, true};
ghost use Rattle.xp_base.specs.declared.codes.EvalError.TheVariants as error;
ghost use Rattle.xp_io.specs.Booleans.{input_bool};
ghost use Rattle.xp_io.specs.Integers.{input_integer};

/// A law: worked rows of the text forms, computed from the definitions alone.
pub fn worked_forms()
    ensures hexadecimal { input_integer 16 (codes "0x7FFF") ≡ Ok (pos 32767) }
    ensures past { input_integer 16 (codes "32768") ≡ Err error.OutOfRange }
    ensures least { input_integer 16 (codes " -32768 ") ≡ Ok (negsuc 32767) }
    ensures underscores { input_integer 32 (codes "1_000") ≡ Ok (pos 1000) }
    ensures last_underscore { input_integer 16 (codes "1_") ≡ Err error.BadText }
    ensures behind_the_letter { input_integer 16 (codes "0x_1") ≡ Ok (pos 1) }
    ensures no_digit { input_integer 16 (codes "0x") ≡ Err error.BadText }
    ensures front { input_bool (codes " OF ") ≡ Ok false }
    ensures one { input_bool (codes "1") ≡ Ok true }
    ensures either { input_bool (codes "o") ≡ Err error.BadText }
    ensures more { input_bool (codes "truee") ≡ Err error.BadText }
{}
