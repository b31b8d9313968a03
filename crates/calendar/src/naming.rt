// From days to a date: the century that a day lies in, the year in it, and the month in that. Centuries and years begin with March here, so that a leap
// day is the last of its year.
ghost use Rattle.std.specs.Prelude.{◌≡◌, true, ◌+◌, ◌<◌, ◌≤◌};
ghost use Rattle.rules.specs.Day.{is_day};
ghost use Rattle.rules.specs.Calendar.{date_after};
ghost use Rattle.rules.specs.Conversion.{days_since};
ghost use Rattle.calendar.specs.Parts.{march_year, CenturyIs, YearIs, MonthIs};

use rules::Date;

// 1 March 2000, on which a century begins.
const NEW_CENTURY: i32 = 36584;

// The year with whose March century 0 begins.
const CENTURY_0: u32 = 1200;

// The days of four centuries, of four years and of five months from March on: a century, a year or a month begins on its share of them, rounded.
const FOUR_CENTURIES: i32 = 146097;

const FOUR_YEARS: u32 = 1461;

const FIVE_MONTHS: u32 = 153;

// A century, a year of it or a month, by number, and the days into it.
#[derive(Clone, Copy)]
struct Place {
    unit: u32,
    days: u32,
}

// Days are counted from 1 March 2000, below zero before it.
fn century_of(day: i32) -> Place
    requires { is_day day ≡ true }
    ensures { CenturyIs (days_since day) result.unit result.days }
{
    let s = signed::floor::split(4 * (day - NEW_CENTURY) + 3, FOUR_CENTURIES);
    Place {
        unit: (s.times + 8) as u32,
        days: s.rest as u32 / 4,
    }
}

fn year_of(days: u32) -> Place
    requires { days < 36525 }
    ensures { YearIs days result.unit result.days }
{
    let quarters = 4 * days + 3;
    Place {
        unit: quarters / FOUR_YEARS,
        days: quarters % FOUR_YEARS / 4,
    }
}

fn month_of(days: u32) -> Place
    requires { days < 366 }
    ensures { MonthIs days result.unit result.days }
{
    let fifths = 5 * days + 2;
    let months = fifths / FIVE_MONTHS;
    let rest = fifths % FIVE_MONTHS / 5;
    if months < 10 {
        Place {
            unit: months + 3,
            days: rest,
        }
    } else {
        Place {
            unit: months - 9,
            days: rest,
        }
    }
}

// The year of a month, by the year with whose March its own began.
fn year_at(began: u32, month: u32) -> u32
    requires { began ≤ 2399 }
    ensures { march_year result month ≡ began + 1 }
{
    if month < 3 { began + 1 } else { began }
}

// The date of a day.
pub fn date_of(day: i32) -> Date
    requires { is_day day ≡ true }
    ensures { result ≡ date_after (days_since day) }
{
    let century = century_of(day);
    let in_century = year_of(century.days);
    let month = month_of(in_century.days);
    let year = year_at(CENTURY_0 + 100 * century.unit + in_century.unit, month.unit);
    Date {
        year: year as u16,
        month: month.unit as u16,
        day: (month.days + 1) as u16,
    }
}
