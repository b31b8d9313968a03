// Refusal 15: two transitions share source and event. A few are compared each with each. More are chained by a cell that source and event give,
// and each is compared with the earlier ones of its cell. Where that takes too many comparisons, or two compare equal, the plan is judged by
// marks, in groups of a source and 4096 events.
ghost use Rattle.std.specs.Prelude.{◌≡◌, false, ℕ, ◌<◌, IfSome};
ghost use Rattle.plan.specs.Plans.{plan_in};
ghost use Rattle.rules.specs.Fold.{some_below};
ghost use Rattle.rules.specs.Plan.{transition};
ghost use Rattle.rules.specs.Acceptance.{bad_transition, repeats_event};
ghost use Rattle.plan.specs.Chain.{has, cell};
ghost use Rattle.plan.specs.Chains.{cell_of};
ghost use Rattle.plan.specs.Passes.{Last, Chains};
ghost use Rattle.plan_reader.specs.Keys.{group, Step};

use plan::Records;
use plan::chains::KeyChains;

// So few transitions are compared each with each.
const FEW: usize = 12;

// So many comparisons are quicker than marks.
const MOST_COMPARISONS: usize = 512;

// A transition's source and event as one number.
fn step_of(records: &Records, x: usize) -> usize
    requires { x < records.now.counts.transitions }
    ensures { Step (plan_in records.now) x result }
{
    usize::from(records.source_of(x)) + 65536 * usize::from(records.event_of(x))
}

// Whether an earlier transition has the source and the event of `x`.
fn repeats_event(records: &Records, x: usize) -> bool
    requires { x < records.now.counts.transitions }
    ensures { result ≡ repeats_event (plan_in records.now) x }
{
    let step = step_of(records, x);
    (0..x).any(|y| step_of(records, y) == step)
}

// Each with each.
fn some_repeats_event(records: &Records) -> bool
    ensures { result ≡ some_below records.now.counts.transitions (repeats_event (plan_in records.now)) }
{
    (0..records.counts.transitions).any(|x| repeats_event(records, x))
}

fn cell_of(records: &Records, x: usize) -> usize
    requires { x < records.now.counts.transitions }
    ensures { (result ≡ cell (plan_in records.now) x) × (result < 256) }
{
    let source = usize::from(records.source_of(x));
    let event = usize::from(records.event_of(x));
    (2 * source + event) % 256
}

// What is left of the comparisons allowed after `x` is compared with the earlier transitions of its cell, `from` being the last of them. None
// where they run out or one has the event of `x`.
fn comparisons_left(
    records: &Records,
    x: usize,
    cells: &KeyChains<256, 256>,
    from: Option<usize>,
    allowed: usize,
) -> Option<usize>
    requires { (x < records.now.counts.transitions)
        × Last x (has (cell (plan_in records.now)) (cell (plan_in records.now) x)) (cell_of from)
        × Chains (has (cell (plan_in records.now))) 256 x cells.now.last cells.now.before }
    ensures { IfSome result (λ _. repeats_event (plan_in records.now) x ≡ false) }
{
    let event = records.event_of(x);
    let mut left = allowed;
    let mut next = from;
    while let Some(y) = next {
        if records.event_of(y) == event {
            return None;
        }
        left = left.checked_sub(1)?;
        next = cells.before(y);
    }
    Some(left)
}

fn group_of(records: &Records, x: usize) -> usize
    requires { (x < records.now.counts.transitions) × ((transition (plan_in records.now) x).source < records.now.counts.states) }
    ensures { (result ≡ group (plan_in records.now) x) × (result < 2048) }
{
    let source = usize::from(records.source_of(x));
    let event = usize::from(records.event_of(x));
    16 * source + event / 4096
}

// The transitions of each group. Every source is a state, as 13 has it.
fn in_groups(records: &Records) -> KeyChains<2048, 256>
    requires { some_below records.now.counts.transitions (bad_transition (plan_in records.now)) ≡ false }
    ensures chains { Chains (has (group (plan_in records.now))) 2048 records.now.counts.transitions result.last result.before }
    ensures keys { (x : ℕ) → x < records.now.counts.transitions → group (plan_in records.now) x < 2048 }
{
    let mut groups = KeyChains::new();
    for x in 0..records.counts.transitions {
        groups.add(group_of(records, x), x);
    }
    groups
}

// Group by group, an event's place in its group is marked with one more than the group's number.
fn some_marked_event(records: &Records) -> bool
    requires { some_below records.now.counts.transitions (bad_transition (plan_in records.now)) ≡ false }
    ensures { result ≡ some_below records.now.counts.transitions (repeats_event (plan_in records.now)) }
{
    let groups = in_groups(records);
    let mut marks: [u16; 4096] = [0; 4096];
    for g in 0..2048 {
        let mark = (g + 1) as u16;
        let mut next = groups.last(g);
        while let Some(y) = next {
            let place = usize::from(records.event_of(y)) % 4096;
            if marks[place] == mark {
                return true;
            }
            marks[place] = mark;
            next = groups.before(y);
        }
    }
    false
}

// By cells. Every source is a state, as 13 has it.
fn some_chained_event(records: &Records) -> bool
    requires { some_below records.now.counts.transitions (bad_transition (plan_in records.now)) ≡ false }
    ensures { result ≡ some_below records.now.counts.transitions (repeats_event (plan_in records.now)) }
{
    let mut cells = KeyChains::new();
    let mut left = MOST_COMPARISONS;
    for x in 0..records.counts.transitions {
        let cell = cell_of(records, x);
        match comparisons_left(records, x, &cells, cells.last(cell), left) {
            Some(rest) => left = rest,
            None => return some_marked_event(records),
        }
        cells.add(cell, x);
    }
    false
}

// Every source is a state, as 13 has it.
pub fn some_repeated_event(records: &Records) -> bool
    requires { some_below records.now.counts.transitions (bad_transition (plan_in records.now)) ≡ false }
    ensures { result ≡ some_below records.now.counts.transitions (repeats_event (plan_in records.now)) }
{
    if records.counts.transitions <= FEW {
        some_repeats_event(records)
    } else {
        some_chained_event(records)
    }
}
