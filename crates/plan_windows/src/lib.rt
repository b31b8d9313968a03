// Refusal 25: a window names no transition, repeats one, ends before it begins, or leaves the range of days.
#![tactic(auto)]

ghost use Rattle.std.specs.Prelude.{◌≡◌, not, ◌||◌};
ghost use Rattle.plan.specs.Plans.{plan_in};
ghost use Rattle.std.specs.Int.Signed.{lt_z};
ghost use Rattle.rules.specs.Fold.{some_below};
ghost use Rattle.rules.specs.Day.{is_day};
ghost use Rattle.rules.specs.Acceptance.{bad_window};

use calendar::dates::is_day;
use plan::Records;

// Whether the last day comes before the first, or either is out of the range.
fn bad_days(first: i32, last: i32) -> bool
    ensures { result ≡ (lt_z last first || not (is_day first) || not (is_day last)) }
{
    last < first || !is_day(first) || !is_day(last)
}

// One pass: `named` marks the transitions that the windows looked at name. Most plans have no window, and then there is nothing to mark.
pub fn some_bad_window(records: &Records) -> bool
    ensures { result ≡ some_below records.now.counts.windows (bad_window (plan_in records.now)) }
{
    if records.counts.windows == 0 {
        return false;
    }
    let mut named = [false; 256];
    for w in 0..records.counts.windows {
        let x = usize::from(records.window_transition(w));
        if records.counts.transitions <= x {
            return true;
        }
        if named[x] {
            return true;
        }
        if bad_days(records.first_day(w), records.last_day(w)) {
            return true;
        }
        named[x] = true;
    }
    false
}
