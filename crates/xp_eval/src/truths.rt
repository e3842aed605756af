//! Three-valued logic (manual 9.1, 9.2).
ghost use Rattle.std.specs.Prelude.{◌≡◌};
ghost use Rattle.xp_meaning.specs.Truth as spec;

use xp_value::Value;

pub fn is_true(value: &Value) -> bool
    ensures { result ≡ spec.is_true value.now }
{
    matches!(value, Value::Bool(true))
}

pub fn is_false(value: &Value) -> bool
    ensures { result ≡ spec.is_false value.now }
{
    matches!(value, Value::Bool(false))
}

/// False where one is, the other where one is true, and else null.
pub fn and_of(x: Value, y: Value) -> Value
    ensures { result ≡ spec.and_of x y }
{
    if is_false(&x) {
        return x;
    }
    if is_false(&y) || is_true(&x) {
        return y;
    }
    if is_true(&y) { x } else { Value::Null }
}

/// True where one is, the other where one is false, and else null.
pub fn or_of(x: Value, y: Value) -> Value
    ensures { result ≡ spec.or_of x y }
{
    if is_true(&x) {
        return x;
    }
    if is_true(&y) || is_false(&x) {
        return y;
    }
    if is_false(&y) { x } else { Value::Null }
}

pub fn not_of(value: &Value) -> Value
    ensures { result ≡ spec.not_of value.now }
{
    match value {
        Value::Bool(truth) => Value::Bool(!*truth),
        _ => Value::Null,
    }
}
