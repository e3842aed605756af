//! Numerics brought to a precision and a scale (manual 8.1.2).
ghost use Rattle.std.specs.Prelude.{◌≡◌, ◌^◌, nat_lt};
ghost use Rattle.xp_call.specs.Calls.{Calls};
ghost use Rattle.xp_base.specs.FromLeft.{and_then};
ghost use Rattle.xp_meaning.specs.Nodes.{limited, unless_null};
ghost use Rattle.xp_tree.specs.declared.parts.Modifier.TheVariants as modifier;
ghost use Rattle.xp_eval.specs.Sizes.{rounded_to, sized_to};

use xp_base::{DIGIT_LIMIT, Dec, EvalError};
use xp_call::CallFault;
use xp_numeric::round_numeric_int4;
use xp_value::Value;

/// Whether the number has at most so many digits.
#[tactic(auto, using(xp_value::proofs::Powers::pow_below, crate::proofs::Lengths::every_precision))]
fn has_digits(precision: u8, number: Dec) -> bool
    ensures { result ≡ nat_lt number.coef (10 ^ precision) }
{
    precision >= DIGIT_LIMIT || number.coef < 10u128.pow(u32::from(precision))
}

/// The number with so many decimals, where it then has at most so many digits.
fn rounded_to(precision: u8, scale: u8, number: Dec) -> Result<Value, EvalError>
    ensures { result ≡ rounded_to precision scale number }
{
    match round_numeric_int4(number, i32::from(scale)) {
        Ok(rounded) => if has_digits(precision, rounded) {
            Ok(Value::Num(rounded))
        } else {
            Err(EvalError::OutOfRange)
        },
        Err(_) => Err(EvalError::OutOfRange),
    }
}

/// A numeric of the precision and the scale; null stays null.
pub fn of_digits(precision: u8, scale: u8, cut: bool, value: Value) -> Result<Value, CallFault>
    ensures { Calls (unless_null (λ v. and_then (sized_to (modifier.Digits precision scale) cut v) limited) value) result }
{
    match value {
        Value::Null => Ok(Value::Null),
        Value::Num(number) => rounded_to(precision, scale, number).map_err(CallFault::Raised),
        _ => Err(CallFault::Raised(EvalError::Limit)),
    }
}
