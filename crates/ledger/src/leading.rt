// The leading words: the length and the sum of the plan that the ledger was begun under, and the last accepted day.
ghost use Rattle.std.specs.Prelude.{◌≡◌, ◌≤◌, ◌<◌, length};
ghost use Rattle.rules.specs.Layout.{leading_words};
ghost use Rattle.rules.specs.Leading.{last_day, dated, stamped, other_plan};

use crate::layout::{HIGH_DAY_WORD, LENGTH_WORD, LOW_DAY_WORD, SUM_WORD};
use calendar::dates::EARLIEST_DAY;
use signed::words;

// Whether the length or the sum is not the plan's.
pub fn is_other(plan: &[u8], ledger: &[u16]) -> bool
    requires { leading_words ≤ length ledger.now }
    ensures { result ≡ other_plan plan.now ledger.now }
{
    let other_length = usize::from(ledger[LENGTH_WORD]) != plan.len();
    let other_sum = ledger[SUM_WORD] != plan_sum::sum(plan);
    other_length | other_sum
}

// The last accepted day.
pub fn last_day(ledger: &[u16]) -> i32
    requires { leading_words ≤ length ledger.now }
    ensures { result ≡ last_day ledger.now }
{
    words::join(ledger[LOW_DAY_WORD], ledger[HIGH_DAY_WORD])
}

// Writes a day as the last accepted one.
pub fn put_day(ledger: &mut [u16], day: i32)
    requires { leading_words ≤ length ledger.old }
    ensures { ledger.new ≡ dated day ledger.old }
{
    ledger[LOW_DAY_WORD] = words::low_word(day);
    ledger[HIGH_DAY_WORD] = words::high_word(day);
}

// Writes them all, with the earliest day.
pub fn stamp(plan: &[u8], ledger: &mut [u16])
    requires { (length plan.now < 65536) × (leading_words ≤ length ledger.old) }
    ensures { ledger.new ≡ stamped plan.now ledger.old }
{
    ledger[LENGTH_WORD] = plan.len() as u16;
    ledger[SUM_WORD] = plan_sum::sum(plan);
    put_day(ledger, EARLIEST_DAY);
}
