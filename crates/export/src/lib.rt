// The calls for C and Rust, under include/retraction.h. Each is a call of `manager`, the plan reader, `largest` or a conversion of `calendar`, its
// answer packed into one number.
#![tactic(auto)]

ghost use Rattle.std.specs.Prelude.{◌≡◌, ◌+◌, ◌*◌};
ghost use Rattle.rules.specs.Setting.{terms_of};
ghost use Rattle.rules.specs.Acceptance.{read_plan};
ghost use Rattle.rules.specs.Conversion.{date_of_day, day_of_date};
ghost use Rattle.rules.specs.Call.{begin_outcome, event_outcome, signal_outcome, fire_outcome, ready_outcome, entries_part};
ghost use Rattle.export.specs.Options.{setting_of};
ghost use Rattle.export.specs.Shown.{track_shown, step_shown};
ghost use Rattle.export.specs.Packed.{bit16, bit32, bit48, packed_reading, packed, packed_ready, packed_part, packed_date, packed_day, Returns};

use largest::NO_TRANSITION;
use ledger::layout;
use ledger::setting::terms_of;
use plan::Records;
use rules::{
    BeginAnswer, Date, DateAnswer, DayAnswer, EventAnswer, FireAnswer, LargestAnswer, Limit,
    ReadyAnswer, Setting, SignalAnswer,
};

// What a figure is multiplied by to stand at bit 16, at bit 32 and at bit 48.
const BIT16: u64 = 65536;

const BIT32: u64 = 4294967296;

const BIT48: u64 = 281474976710656;

// Three figures, at bits 16, 32 and 48.
fn triple(a: u16, b: u16, c: u16) -> u64
    ensures { result ≡ a * bit16 + b * bit32 + c * bit48 }
{
    u64::from(a) * BIT16 + u64::from(b) * BIT32 + u64::from(c) * BIT48
}

// Two figures, at bits 16 and 32.
fn pair(a: u16, b: u16) -> u64
    ensures { result ≡ a * bit16 + b * bit32 }
{
    triple(a, b, 0)
}

// A figure, at bit 16.
fn at_bit16(figure: u16) -> u64
    ensures { result ≡ figure * bit16 }
{
    triple(figure, 0, 0)
}

// A figure of 32 bits, at bit 32.
fn at_bit32(figure: u32) -> u64
    ensures { result ≡ figure * bit32 }
{
    u64::from(figure) * BIT32
}

// What the caller keeps to, by the bits of the options.
fn setting_of(options: u32) -> Setting
    ensures { result ≡ setting_of options }
{
    if options % 2 == 1 {
        return Setting {
            limit: Limit::ReadingRoom,
        };
    }
    Setting { limit: Limit::Main }
}

// A plan's tracks, states and transitions, at bits 16, 32 and 48: they are few.
fn counted(records: &Records) -> u64
    ensures { result ≡ records.now.counts.tracks * bit16 + records.now.counts.states * bit32 + records.now.counts.transitions * bit48 }
{
    triple(
        records.counts.tracks as u16,
        records.counts.states as u16,
        records.counts.transitions as u16,
    )
}

pub fn retraction_read(plan: &[u8]) -> u64
    ensures { result ≡ packed_reading (read_plan plan.now) }
{
    match plan_reader::read(plan) {
        Err(refusal) => u64::from(refusal.number()),
        Ok(read) => counted(&read.records),
    }
}

pub fn retraction_begin(plan: &[u8], ledger: &mut [u16], options: u32) -> u64
    ensures { Returns packed (begin_outcome (terms_of (setting_of options)) plan.now ledger.old) result ledger.new }
{
    match manager::begin(setting_of(options), plan, ledger) {
        BeginAnswer::Refused(n) => u64::from(n),
        BeginAnswer::Begun => 0,
    }
}

pub fn retraction_event(
    plan: &[u8],
    ledger: &mut [u16],
    event: u16,
    day: i32,
    society: u16,
    options: u32,
) -> u64
    ensures { Returns packed (event_outcome (terms_of (setting_of options)) plan.now ledger.old
        (record { event = event; day = day; society = society })) result ledger.new }
{
    match manager::event(setting_of(options), plan, ledger, event, day, society) {
        EventAnswer::Refused(n) => u64::from(n),
        EventAnswer::Moved(moved, closed) => pair(moved, closed),
    }
}

pub fn retraction_signal(plan: &[u8], ledger: &mut [u16], society: u16, options: u32) -> u64
    ensures { Returns packed (signal_outcome (terms_of (setting_of options)) plan.now ledger.old (record { society = society }))
        result ledger.new }
{
    match manager::signal(setting_of(options), plan, ledger, society) {
        SignalAnswer::Refused(n) => u64::from(n),
        SignalAnswer::Turned(turned) => at_bit16(turned),
    }
}

pub fn retraction_fire(
    plan: &[u8],
    ledger: &mut [u16],
    track: u16,
    society: u16,
    options: u32,
) -> u64
    ensures { Returns packed (fire_outcome (terms_of (setting_of options)) plan.now ledger.old
        (record { track = track; society = society })) result ledger.new }
{
    match manager::fire(setting_of(options), plan, ledger, track, society) {
        FireAnswer::Refused(n) => u64::from(n),
        FireAnswer::Fired(code, deviation) => pair(code, deviation),
    }
}

pub fn retraction_ready(plan: &[u8], ledger: &mut [u16], options: u32) -> u64
    ensures { Returns packed_ready (ready_outcome (terms_of (setting_of options)) plan.now ledger.old) result ledger.new }
{
    match manager::ready(setting_of(options), plan, ledger) {
        ReadyAnswer::Refused(n) => u64::from(n),
        ReadyAnswer::Ready(bits) => at_bit32(bits),
    }
}

pub fn retraction_entries(plan: &[u8], ledger: &[u16], track: u16, options: u32) -> u64
    ensures { result ≡ packed_part (terms_of (setting_of options)) (entries_part (terms_of (setting_of options)) plan.now ledger.now track) track }
{
    let setting = setting_of(options);
    let part = manager::entries(setting, plan, ledger, track);
    let count = part.len();
    if count == 0 {
        return 0;
    }
    let from = layout::entry_place(terms_of(setting), usize::from(track), 0);
    (count as u64) + (from as u64) * BIT16
}

// As many tracks as there can be.
const MOST_TRACKS: u16 = 32;

pub fn retraction_largest(plan: &[u8], track: u16) -> u64
    ensures { result ≡ packed (track_shown plan.now track) }
{
    let shown = largest::of_plan(plan);
    match shown.answer {
        LargestAnswer::Refused(n) => u64::from(n),
        LargestAnswer::Shown => {
            if MOST_TRACKS <= track {
                return 0;
            }
            let t = usize::from(track);
            pair(shown.figures[t], shown.lengths[t])
        }
    }
}

pub fn retraction_largest_step(plan: &[u8], track: u16, place: u16) -> u64
    ensures { result ≡ packed (step_shown plan.now track place) }
{
    let shown = largest::of_plan(plan);
    match shown.answer {
        LargestAnswer::Refused(n) => u64::from(n),
        LargestAnswer::Shown => {
            if MOST_TRACKS <= track {
                return at_bit16(NO_TRANSITION);
            }
            let t = usize::from(track);
            let step = largest::steps::step_at(&shown.lengths, &shown.steps, t, place);
            at_bit16(step)
        }
    }
}

pub fn retraction_date_of_day(day: i32) -> u64
    ensures { result ≡ packed_date (date_of_day day) }
{
    match calendar::date_of_day(day) {
        DateAnswer::Refused(n) => u64::from(n),
        DateAnswer::On(date) => triple(date.year, date.month, date.day),
    }
}

pub fn retraction_day_of_date(year: u16, month: u16, day: u16) -> u64
    ensures { result ≡ packed_day (day_of_date (record { year = year; month = month; day = day })) }
{
    match calendar::day_of_date(Date { year, month, day }) {
        DayAnswer::Refused(n) => u64::from(n),
        DayAnswer::Day(z) => at_bit32(signed::words::bits_of(z)),
    }
}
