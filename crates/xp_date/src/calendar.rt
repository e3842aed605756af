//! Days as dates of the calendar, and as week dates.
ghost use Rattle.std.specs.Prelude.{◌≡◌, pos, true};
ghost use Rattle.jiff_core.specs.Date.{epoch_day};
ghost use Rattle.xp_date.specs.Days.{day_of_month, month_of, week_of, week_year_of, year_of};
ghost use Rattle.xp_value.specs.Representation.{is_date};

use jiff_core::civil::{Date, ISOWeekDate};

/// The date of a day.
pub fn date_of(day: i32) -> Date
    requires { is_date day ≡ true }
    ensures day { epoch_day result ≡ day }
    ensures year { result.year ≡ pos (year_of day) }
    ensures month { result.month ≡ month_of day }
    ensures place { result.day ≡ day_of_month day }
{
    Date::from_unix_epoch_day(i64::from(day)).unwrap()
}

/// The ISO 8601 week date of a day.
pub fn week_date_of(day: i32) -> ISOWeekDate
    requires { is_date day ≡ true }
    ensures year { result.year ≡ pos (week_year_of day) }
    ensures week { result.week ≡ week_of day }
{
    ISOWeekDate::from_date(date_of(day))
}
