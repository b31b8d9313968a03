// The sum alone, for the benchmark to time: eight bytes a round, as the calls form it, and two bytes a round, as they formed it before.
#![tactic(auto)]

ghost use Rattle.std.specs.Prelude.{◌≡◌};
ghost use Rattle.rules.specs.Leading.{plan_sum};

use plan::fields;

pub fn timed_sum_by_eight(plan: &[u8]) -> u64
    ensures { result ≡ plan_sum plan.now }
{
    u64::from(plan_sum::sum(plan))
}

pub fn timed_sum_by_two(plan: &[u8]) -> u64
    ensures { result ≡ plan_sum plan.now }
{
    let mut sum: u16 = 0;
    let mut at: usize = 0;
    while 2 <= plan.len() - at {
        sum = sum.wrapping_add(fields::word_at(plan, at));
        at += 2;
    }
    if at < plan.len() {
        return u64::from(sum.wrapping_add(u16::from(plan[at])));
    }
    u64::from(sum)
}
