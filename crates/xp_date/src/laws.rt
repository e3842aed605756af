//! Laws of the definitions.
ghost use Rattle.std.specs.Prelude.{◌≡◌, ℤ, pos, Ok, true};
ghost use Rattle.xp_date.specs.Days.{day_of_month, made, month_of, year_of};
ghost use Rattle.xp_date.specs.Texts.{date_in, text};
ghost use Rattle.xp_value.specs.Representation.{is_date};
ghost use Rattle.xp_value.specs.declared.value.TheConstants.{FIRST_DAY, LAST_DAY};

/// A law: dates go from the first day of the year 1 to the last day of the year 9999.
pub fn years_are_1_to_9999()
    ensures first { made (pos 1) (pos 1) (pos 1) ≡ Ok FIRST_DAY }
    ensures last { made (pos 9999) (pos 12) (pos 31) ≡ Ok LAST_DAY }
{}

/// A law: a day is the one that has its year, month and day of the month.
pub fn days_are_made_of_their_parts()
    ensures { (day : ℤ) → is_date day ≡ true → made (pos (year_of day)) (pos (month_of day)) (pos (day_of_month day)) ≡ Ok day }
{}

/// A law: what is written of a day is read as that day.
pub fn texts_are_read_back()
    ensures { (day : ℤ) → is_date day ≡ true → date_in (text day) ≡ Ok day }
{}
