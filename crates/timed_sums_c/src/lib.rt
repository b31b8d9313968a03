// The sums of `timed_sums` under their names for C, for the benchmark: each is that sum, with its promise.
#![tactic(auto)]

ghost use Rattle.std.specs.Prelude.{◌≡◌};
ghost use Rattle.rules.specs.Leading.{plan_sum};

#[unsafe(no_mangle)]
pub extern "C" fn timed_sum_by_eight(plan: &[u8]) -> u64
    ensures { result ≡ plan_sum plan.now }
{
    timed_sums::timed_sum_by_eight(plan)
}

#[unsafe(no_mangle)]
pub extern "C" fn timed_sum_by_two(plan: &[u8]) -> u64
    ensures { result ≡ plan_sum plan.now }
{
    timed_sums::timed_sum_by_two(plan)
}
