// From a date to days: those of the years before it, of its year's months before it, and of its month before it.
ghost use Rattle.std.specs.Prelude.{◌≡◌, true, ◌+◌, ◌-◌, ◌≤◌, ◌<◌};
ghost use Rattle.rules.specs.Calendar.{is_date, in_months, in_years, days_to};
ghost use Rattle.rules.specs.Conversion.{day_number};
ghost use Rattle.calendar.specs.Parts.{march_year, SinceMarch};

use rules::Date;

// The days from 1 January 1600 to day 0.
const EPOCH: i32 = 109573;

const MARCH_TO_JANUARY: u32 = 306;

// The days of the years from 1600 on: every fourth has one more, but of the hundredth years only every fourth.
fn before_year(year: u16) -> u32
    requires { (1600 ≤ year) × (year ≤ 2400) }
    ensures { result ≡ in_years (year - 1600) }
{
    let k = u32::from(year - 1600);
    365 * k + (k + 3) / 4 - (k + 99) / 100 + (k + 399) / 400
}

// A year from March on has its leap day at its end. This is the year in which the one that a month lies in ends.
fn march_year(year: u16, month: u16) -> u16
    requires { year ≤ 2399 }
    ensures { result ≡ march_year year month }
{
    if month < 3 { year } else { year + 1 }
}

// The days of a year from March on before a month of it.
fn since_march(month: u16) -> u32
    requires { (1 ≤ month) × (month ≤ 12) }
    ensures { SinceMarch month result }
{
    match month {
        3 => 0,
        4 => 31,
        5 => 61,
        6 => 92,
        7 => 122,
        8 => 153,
        9 => 184,
        10 => 214,
        11 => 245,
        12 => 275,
        1 => 306,
        _ => 337,
    }
}

// The days from 1 January 1600 to the first of a month: to the January in its year from March on, back to that March, and on to the month.
fn before_month(year: u16, month: u16) -> u32
    requires { (1600 ≤ year) × (year ≤ 2399) × (1 ≤ month) × (month ≤ 12) }
    ensures { result ≡ in_years (year - 1600) + in_months year (month - 1) }
{
    before_year(march_year(year, month)) + since_march(month) - MARCH_TO_JANUARY
}

// The days from 1 January 1600.
fn days_to(date: Date) -> u32
    requires { is_date date ≡ true }
    ensures { (result ≡ days_to date) × (result < 292194) }
{
    before_month(date.year, date.month) + (u32::from(date.day) - 1)
}

// The number of a date's day.
pub fn day_of(date: Date) -> i32
    requires { is_date date ≡ true }
    ensures { result ≡ day_number date }
{
    days_to(date) as i32 - EPOCH
}
