//! The fields of dates.
ghost use Rattle.std.specs.Prelude.{◌≡◌, ◌<◌, pos, IfOk, Ok, true};
ghost use Rattle.jiff_core.specs.Calendar.{weekday_number};
ghost use Rattle.jiff_core.specs.Sign.{signed};
ghost use Rattle.xp_base.specs.FromLeft.{and_then};
ghost use Rattle.xp_date.specs.Fields.{extracted, field_named, number};
ghost use Rattle.xp_date.specs.declared.fields.Field.TheVariants.{Doy};
ghost use Rattle.xp_value.specs.Representation.{is_date};

use crate::calendar::{date_of, week_date_of};
use xp_base::{Dec, EvalError};

/// A part of a date, or a number that a date gives.
#[derive(Clone, Copy, Debug, PartialEq, Eq)]
pub enum Field {
    Year,
    Month,
    Day,
    Quarter,
    Doy,
    Dow,
    Isodow,
    Week,
    Isoyear,
    Epoch,
}

/// The field of that name.
fn field_named(name: &[u8]) -> Option<Field>
    ensures { result ≡ field_named name.now }
{
    if name.eq_ignore_ascii_case(b"year") {
        Some(Field::Year)
    } else if name.eq_ignore_ascii_case(b"month") {
        Some(Field::Month)
    } else if name.eq_ignore_ascii_case(b"day") {
        Some(Field::Day)
    } else if name.eq_ignore_ascii_case(b"quarter") {
        Some(Field::Quarter)
    } else if name.eq_ignore_ascii_case(b"doy") {
        Some(Field::Doy)
    } else if name.eq_ignore_ascii_case(b"dow") {
        Some(Field::Dow)
    } else if name.eq_ignore_ascii_case(b"isodow") {
        Some(Field::Isodow)
    } else if name.eq_ignore_ascii_case(b"week") {
        Some(Field::Week)
    } else if name.eq_ignore_ascii_case(b"isoyear") {
        Some(Field::Isoyear)
    } else if name.eq_ignore_ascii_case(b"epoch") {
        Some(Field::Epoch)
    } else {
        None
    }
}

/// The place of a day in its year, from 1.
fn day_of_year(day: i32) -> u16
    requires { is_date day ≡ true }
    ensures { pos result ≡ number Doy day }
{
    date_of(day).day_of_year()
}

/// The day of the week, from Monday as 0.
fn weekday(day: i32) -> u8
    requires { is_date day ≡ true }
    ensures value { result ≡ weekday_number day }
    ensures bound { result < 7 }
{
    date_of(day).weekday().index()
}

/// The number of a date's field.
fn number(field: Field, day: i32) -> i64
    requires { is_date day ≡ true }
    ensures { result ≡ number field day }
{
    match field {
        Field::Year => i64::from(date_of(day).year),
        Field::Month => i64::from(date_of(day).month),
        Field::Day => i64::from(date_of(day).day),
        Field::Quarter => i64::from((date_of(day).month + 2) / 3),
        Field::Doy => i64::from(day_of_year(day)),
        Field::Dow => i64::from((weekday(day) + 1) % 7),
        Field::Isodow => i64::from(weekday(day) + 1),
        Field::Week => i64::from(week_date_of(day).week),
        Field::Isoyear => i64::from(week_date_of(day).year),
        Field::Epoch => i64::from(day) * 86_400,
    }
}

/// A whole number as a numeric without decimals.
fn whole(n: i64) -> Dec
    ensures number { signed result.neg result.coef ≡ n }
    ensures scale { result.scale ≡ 0 }
{
    Dec {
        neg: n < 0,
        coef: u128::from(n.unsigned_abs()),
        scale: 0,
    }
}

/// The number of the field with that name, in any case of its letters, without decimals.
pub fn extract(field: &[u8], day: i32) -> Result<Dec, EvalError>
    requires { is_date day ≡ true }
    ensures value { and_then result (λ x. Ok (signed x.neg x.coef)) ≡ extracted field.now day }
    ensures scale { IfOk result (λ x. x.scale ≡ 0) }
{
    match field_named(field) {
        Some(field) => Ok(whole(number(field, day))),
        None => Err(EvalError::BadParameter),
    }
}
