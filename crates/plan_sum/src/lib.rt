// The sum of a plan's bytes, taken as little-endian 16-bit numbers, modulo 65,536: eight bytes a round, a last 2, 4 or 6 apart. It takes any bytes.
#![tactic(auto)]

ghost use Rattle.std.specs.Prelude.{◌≡◌, ◌+◌, ◌*◌, ◌<◌, ◌≤◌, length, drop};
ghost use Rattle.rules.specs.Record.{word};
ghost use Rattle.rules.specs.Leading.{numbers_total, plan_sum};

// The 16-bit number that two bytes are.
fn number(low: u8, high: u8) -> u64
    ensures { (result ≡ low + 256 * high) × (result < 65536) }
{
    u64::from(low) + 256 * u64::from(high)
}

// The numbers of a round's eight bytes, added up: one from each quarter of the plan. The next round's numbers stand right behind them, so that the
// compiler can add many rounds at once.
fn round(plan: &[u8], quarter: usize, at: usize) -> u64
    requires { (at + 2 ≤ quarter) × (4 * quarter ≤ length plan.now) }
    ensures { result ≡ word plan.now at + word plan.now (quarter + at)
        + word plan.now (2 * quarter + at) + word plan.now (3 * quarter + at) }
{
    let second = quarter + at;
    let third = 2 * quarter + at;
    let fourth = 3 * quarter + at;
    let front = number(plan[at], plan[at + 1]) + number(plan[second], plan[second + 1]);
    let back = number(plan[third], plan[third + 1]) + number(plan[fourth], plan[fourth + 1]);
    front + back
}

// The number at a place.
fn number_at(plan: &[u8], at: usize) -> u64
    requires { at + 2 ≤ length plan.now }
    ensures { (result ≡ word plan.now at) × (result < 65536) }
{
    number(plan[at], plan[at + 1])
}

// A last byte that has no other beside it, as a number; 0 where there is none.
fn unpaired(plan: &[u8], at: usize) -> u64
    requires { (at ≤ length plan.now) × (length plan.now < at + 2) }
    ensures { (result ≡ numbers_total (drop at plan.now)) × (result < 65536) }
{
    if at < plan.len() {
        number(plan[at], 0)
    } else {
        0
    }
}

// The numbers of a last 2, 4 or 6 bytes, or of none, added up with a byte behind them.
fn last(plan: &[u8], at: usize) -> u64
    requires { (at ≤ length plan.now) × (length plan.now < at + 8) }
    ensures { result ≡ numbers_total (drop at plan.now) }
{
    let left = plan.len() - at;
    if 6 <= left {
        return number_at(plan, at)
            + number_at(plan, at + 2)
            + number_at(plan, at + 4)
            + unpaired(plan, at + 6);
    }
    if 4 <= left {
        return number_at(plan, at) + number_at(plan, at + 2) + unpaired(plan, at + 4);
    }
    if 2 <= left {
        return number_at(plan, at) + unpaired(plan, at + 2);
    }
    unpaired(plan, at)
}

// The sum. It is kept modulo 2 ^ 64, which 65,536 divides, and reduced once, at the end.
pub fn sum(plan: &[u8]) -> u16
    ensures { result ≡ plan_sum plan.now }
{
    // bytes of a quarter, of all that fill rounds
    let quarter = plan.len() / 8 * 2;
    let mut sum: u64 = 0;
    let mut at: usize = 0;
    while at < quarter {
        sum = sum.wrapping_add(round(plan, quarter, at));
        at += 2;
    }
    let all = sum.wrapping_add(last(plan, 4 * quarter));
    (all % 65536) as u16
}
