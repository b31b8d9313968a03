// The Gregorian calendar from 1600 to 2399: the date of a day, and the day of a date. Neither call has a `requires`: any other day or date is turned
// back as 26.
#![tactic(auto)]

mod counting;
pub mod dates;
mod naming;

ghost use Rattle.std.specs.Prelude.{◌≡◌};
ghost use Rattle.rules.specs.Conversion.{date_of_day, day_of_date};
ghost use Rattle.rules.specs.Answers.{date_told, day_told};

use rules::{Date, DateAnswer, DayAnswer, Refusal};

pub fn date_of_day(day: i32) -> DateAnswer
    ensures { date_told result ≡ date_of_day day }
{
    if dates::is_day(day) {
        DateAnswer::On(naming::date_of(day))
    } else {
        DateAnswer::Refused(Refusal::Day as u8)
    }
}

pub fn day_of_date(date: Date) -> DayAnswer
    ensures { day_told result ≡ day_of_date date }
{
    if dates::is_date(date) {
        DayAnswer::Day(counting::day_of(date))
    } else {
        DayAnswer::Refused(Refusal::Day as u8)
    }
}
