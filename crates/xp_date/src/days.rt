//! Days counted from a day, between two days, and made of a year, a month and a day.
ghost use Rattle.std.specs.Prelude.{◌≡◌, ◌+ℤ◌, ◌-ℤ◌, true};
ghost use Rattle.xp_date.specs.Days.{made, within_years};
ghost use Rattle.xp_value.specs.Representation.{is_date};

use jiff_core::civil::Date;
use xp_base::EvalError;
use xp_value::{FIRST_DAY, LAST_DAY};

/// The day of that number, where it is a date.
fn within_years(day: i64) -> Result<i32, EvalError>
    ensures { result ≡ within_years day }
{
    if i64::from(FIRST_DAY) <= day && day <= i64::from(LAST_DAY) {
        Ok(day as i32)
    } else {
        Err(EvalError::DateOutOfRange)
    }
}

/// So many days later.
pub fn add_date_int4(day: i32, count: i32) -> Result<i32, EvalError>
    ensures { result ≡ within_years (day +ℤ count) }
{
    within_years(i64::from(day) + i64::from(count))
}

/// So many days later.
pub fn add_int4_date(count: i32, day: i32) -> Result<i32, EvalError>
    ensures { result ≡ within_years (count +ℤ day) }
{
    add_date_int4(day, count)
}

/// So many days earlier.
pub fn sub_date_int4(day: i32, count: i32) -> Result<i32, EvalError>
    ensures { result ≡ within_years (day -ℤ count) }
{
    within_years(i64::from(day) - i64::from(count))
}

/// The days from `b` to `a`.
pub fn sub_date_date(a: i32, b: i32) -> i32
    requires a { is_date a ≡ true }
    requires b { is_date b ≡ true }
    ensures { result ≡ a -ℤ b }
{
    a - b
}

/// The day with these parts, where the calendar has it.
fn day_in_year(year: i16, month: i8, day: i8) -> Result<i32, EvalError>
    ensures { result ≡ made year month day }
{
    if year < 1 {
        return Err(EvalError::DateOutOfRange);
    }
    match Date::new(year, month, day) {
        Ok(date) => Ok(date.to_unix_epoch_day()),
        Err(_) => Err(EvalError::DateOutOfRange),
    }
}

/// The day of that year, month and day of the month.
pub fn make_date(year: i32, month: i32, day: i32) -> Result<i32, EvalError>
    ensures { result ≡ made year month day }
{
    match (i16::try_from(year), i8::try_from(month), i8::try_from(day)) {
        (Ok(year), Ok(month), Ok(day)) => day_in_year(year, month, day),
        _ => Err(EvalError::DateOutOfRange),
    }
}
