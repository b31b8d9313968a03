// Which days and which dates there are.
ghost use Rattle.std.specs.Prelude.{◌≡◌, ◌≤◌, leb};
ghost use Rattle.rules.specs.Day.{is_day};
ghost use Rattle.rules.specs.Calendar.{is_leap, month_length, is_date};

use rules::Date;

// 1 January 1600 and 31 December 2399.
pub const EARLIEST_DAY: i32 = -109573;

const LATEST_DAY: i32 = 182620;

const FIRST_YEAR: u16 = 1600;

const LAST_YEAR: u16 = 2399;

const MONTHS: u16 = 12;

const SHORTEST_MONTH: u16 = 28;

#[tactic(auto, unfolding(rules::specs::Day::is_day))]
pub fn is_day(day: i32) -> bool
    ensures { result ≡ is_day day }
{
    (EARLIEST_DAY..=LATEST_DAY).contains(&day)
}

#[tactic(auto, unfolding(rules::specs::Calendar::is_leap))]
fn is_leap(year: u16) -> bool
    ensures { result ≡ is_leap year }
{
    year % 4 == 0 && (year % 100 != 0 || year % 400 == 0)
}

fn month_length(year: u16, month: u16) -> u16
    requires { (1 ≤ month) × (month ≤ 12) }
    ensures { result ≡ month_length year month }
{
    match month {
        2 => { if is_leap(year) { 29 } else { 28 } }
        4 | 6 | 9 | 11 => 30,
        _ => 31,
    }
}

fn is_in_month(year: u16, month: u16, day: u16) -> bool
    requires { (1 ≤ month) × (month ≤ 12) }
    ensures { result ≡ leb day (month_length year month) }
{
    day <= SHORTEST_MONTH || day <= month_length(year, month)
}

#[tactic(auto, unfolding(rules::specs::Calendar::is_date))]
pub fn is_date(date: Date) -> bool
    ensures { result ≡ is_date date }
{
    (FIRST_YEAR..=LAST_YEAR).contains(&date.year)
        && (1..=MONTHS).contains(&date.month)
        && 1 <= date.day
        && is_in_month(date.year, date.month, date.day)
}
