//! The text of a date, and the date that a text is.
ghost use Rattle.std.specs.Prelude.{◌≡◌, [], ◌∷◌, ◌++◌, ◌<◌, IfOk, IfSome, OnErr, OnOk, true};
ghost use Rattle.xp_date.specs.Texts.{date_in, digit, four_digits, made_of, number_in, text, two_digits};
ghost use Rattle.xp_value.specs.Representation.{is_date};

use crate::calendar::date_of;
use crate::days::make_date;
use xp_base::{Byts, EvalError, Memory};

/// The number that two digits write.
fn of_two(tens: u8, ones: u8) -> Option<u8>
    ensures value { result ≡ number_in (tens ∷ ones ∷ []) }
    ensures bound { IfSome result (λ n. n < 100) }
{
    let tens = char::from(tens).to_digit(10)?;
    let ones = char::from(ones).to_digit(10)?;
    Some((tens * 10 + ones) as u8)
}

/// The number that four digits write.
fn of_four(a: u8, b: u8, c: u8, d: u8) -> Option<u16>
    ensures { result ≡ number_in (a ∷ b ∷ c ∷ d ∷ []) }
{
    let high = of_two(a, b)?;
    let low = of_two(c, d)?;
    Some(u16::from(high) * 100 + u16::from(low))
}

/// The day with these parts, where they are numbers.
fn made_of(year: Option<u16>, month: Option<u8>, day: Option<u8>) -> Result<i32, EvalError>
    ensures years { IfOk result (λ day. is_date day ≡ true) }
    ensures value { result ≡ made_of year month day }
{
    match (year, month, day) {
        (Some(year), Some(month), Some(day)) => {
            make_date(i32::from(year), i32::from(month), i32::from(day))
        }
        _ => Err(EvalError::BadDate),
    }
}

/// The day that a text without white space at its ends is.
pub fn read_date(text: &[u8]) -> Result<i32, EvalError>
    ensures value { result ≡ date_in text.now }
    ensures years { IfOk result (λ day. is_date day ≡ true) }
{
    if text.len() != 10 || text[4] != b'-' || text[7] != b'-' {
        return Err(EvalError::BadDate);
    }
    let year = of_four(text[0], text[1], text[2], text[3]);
    let month = of_two(text[5], text[6]);
    let day = of_two(text[8], text[9]);
    made_of(year, month, day)
}

/// The last digit of a number.
fn digit(n: u16) -> u8
    ensures { result ≡ digit n }
{
    b'0' + (n % 10) as u8
}

/// The digits of a date's text.
fn text_of(year: u16, month: u16, day: u16) -> [u8; 10]
    ensures { result ≡ four_digits year ++ 45 ∷ two_digits month ++ 45 ∷ two_digits day }
{
    [
        digit(year / 1000),
        digit(year / 100),
        digit(year / 10),
        digit(year),
        b'-',
        digit(month / 10),
        digit(month),
        b'-',
        digit(day / 10),
        digit(day),
    ]
}

/// Adds the text of a day, as `2024-02-29`.
pub fn write_date(day: i32, out: &mut Byts) -> Result<(), Memory>
    requires { is_date day ≡ true }
    ensures ok { OnOk result (out.new ≡ out.old ++ text day) }
    ensures err { OnErr result (out.new ≡ out.old) }
{
    let date = date_of(day);
    let text = text_of(date.year as u16, u16::from(date.month), u16::from(date.day));
    out.append(&text)
}
