//! Ranges made of two bounds.
ghost use Rattle.std.specs.Prelude.{◌≡◌, option_map, IfOk, IfSome, true};
ghost use Rattle.xp_range.specs.Constructors.{flags_in, flags_named, is_crossed, made, made_with, past, standard, stepped};
ghost use Rattle.xp_value.specs.Representation.{is_bound, is_range};

use crate::bounds::between;
use xp_base::EvalError;
use xp_value::{FIRST_DAY, LAST_DAY, Range, RangeKind};

/// Whether each of the bounds belongs to the range.
#[derive(Clone, Copy, Debug, PartialEq, Eq)]
pub struct Flags {
    pub lower_inc: bool,
    pub upper_inc: bool,
}

/// Whether the bound is of the range's subtype.
fn is_bound(kind: RangeKind, bound: i64) -> bool
    ensures { result ≡ is_bound kind bound }
{
    match kind {
        RangeKind::Int4 => i64::from(i32::MIN) <= bound && bound <= i64::from(i32::MAX),
        RangeKind::Int8 => true,
        RangeKind::Day => i64::from(FIRST_DAY) <= bound && bound <= i64::from(LAST_DAY),
    }
}

/// The error of a bound past the end of its type.
fn past(kind: RangeKind) -> EvalError
    ensures { result ≡ past kind }
{
    match kind {
        RangeKind::Int4 | RangeKind::Int8 => EvalError::OutOfRange,
        RangeKind::Day => EvalError::DateOutOfRange,
    }
}

/// The bound one higher where it has to step, if the type has that.
fn stepped(kind: RangeKind, steps: bool, bound: Option<i64>) -> Result<Option<i64>, EvalError>
    ensures { result ≡ stepped kind steps bound }
{
    let Some(bound) = bound else {
        return Ok(None);
    };
    if !steps {
        return Ok(Some(bound));
    }
    match bound.checked_add(1) {
        Some(next) if is_bound(kind, next) => Ok(Some(next)),
        _ => Err(past(kind)),
    }
}

/// Whether both bounds are finite and the lower one is above the upper one.
fn is_crossed(lower: Option<i64>, upper: Option<i64>) -> bool
    ensures { result ≡ is_crossed lower upper }
{
    match (lower, upper) {
        (Some(lower), Some(upper)) => lower > upper,
        _ => false,
    }
}

/// The range of these bounds; an infinite one is none.
pub fn make_range_of(
    kind: RangeKind,
    flags: Flags,
    lower: Option<i64>,
    upper: Option<i64>,
) -> Result<Range, EvalError>
    ensures value { result ≡ made kind flags lower upper }
    ensures range { IfSome lower (λ n. is_bound kind n ≡ true) → IfSome upper (λ n. is_bound kind n ≡ true) → IfOk result (λ range. is_range kind range ≡ true) }
{
    if is_crossed(lower, upper) {
        return Err(EvalError::RangeData);
    }
    let lower = stepped(kind, !flags.lower_inc, lower)?;
    let upper = stepped(kind, flags.upper_inc, upper)?;
    Ok(between(kind, lower, upper))
}

/// The range of these bounds, whose lower one belongs to it and whose upper one doesn't.
pub fn make_range(
    kind: RangeKind,
    lower: Option<i64>,
    upper: Option<i64>,
) -> Result<Range, EvalError>
    ensures value { result ≡ made kind standard lower upper }
    ensures range { IfSome lower (λ n. is_bound kind n ≡ true) → IfSome upper (λ n. is_bound kind n ≡ true) → IfOk result (λ range. is_range kind range ≡ true) }
{
    let flags = Flags {
        lower_inc: true,
        upper_inc: false,
    };
    make_range_of(kind, flags, lower, upper)
}

/// The flags that a text spells.
pub fn flags_named(text: &[u8]) -> Option<Flags>
    ensures { result ≡ flags_named text.now }
{
    let (lower_inc, upper_inc) = match text {
        b"[]" => (true, true),
        b"[)" => (true, false),
        b"(]" => (false, true),
        b"()" => (false, false),
        _ => return None,
    };
    Some(Flags {
        lower_inc,
        upper_inc,
    })
}

/// The range of these bounds with a text of flags, which may be null.
pub fn make_range_with(
    kind: RangeKind,
    lower: Option<i64>,
    upper: Option<i64>,
    flags: Option<&[u8]>,
) -> Result<Range, EvalError>
    ensures value { result ≡ made_with kind lower upper (option_map (λ text. text.now) flags.entry) }
    ensures range { IfSome lower (λ n. is_bound kind n ≡ true) → IfSome upper (λ n. is_bound kind n ≡ true) → IfOk result (λ range. is_range kind range ≡ true) }
{
    let flags = flags.and_then(flags_named).ok_or(EvalError::BadParameter)?;
    make_range_of(kind, flags, lower, upper)
}
