// The calls of `export` under their names for C, in include/retraction.h: each is that call, with its promise.
#![tactic(auto)]

ghost use Rattle.std.specs.Prelude.{◌≡◌};
ghost use Rattle.rules.specs.Setting.{terms_of};
ghost use Rattle.rules.specs.Acceptance.{read_plan};
ghost use Rattle.rules.specs.Conversion.{date_of_day, day_of_date};
ghost use Rattle.rules.specs.Call.{begin_outcome, event_outcome, signal_outcome, fire_outcome, ready_outcome, entries_part};
ghost use Rattle.export.specs.Options.{setting_of};
ghost use Rattle.export.specs.Shown.{track_shown, step_shown};
ghost use Rattle.export.specs.Packed.{packed_reading, packed, packed_ready, packed_part, packed_date, packed_day, Returns};

#[unsafe(no_mangle)]
pub extern "C" fn retraction_read(plan: &[u8]) -> u64
    ensures { result ≡ packed_reading (read_plan plan.now) }
{
    export::retraction_read(plan)
}

#[unsafe(no_mangle)]
pub extern "C" fn retraction_begin(plan: &[u8], ledger: &mut [u16], options: u32) -> u64
    ensures { Returns packed (begin_outcome (terms_of (setting_of options)) plan.now ledger.old) result ledger.new }
{
    export::retraction_begin(plan, ledger, options)
}

#[unsafe(no_mangle)]
pub extern "C" fn retraction_event(
    plan: &[u8],
    ledger: &mut [u16],
    event: u16,
    day: i32,
    society: u16,
    options: u32,
) -> u64
    ensures { Returns packed (event_outcome (terms_of (setting_of options)) plan.now ledger.old
        (record { event = event; day = day; society = society })) result ledger.new }
{
    export::retraction_event(plan, ledger, event, day, society, options)
}

#[unsafe(no_mangle)]
pub extern "C" fn retraction_signal(
    plan: &[u8],
    ledger: &mut [u16],
    society: u16,
    options: u32,
) -> u64
    ensures { Returns packed (signal_outcome (terms_of (setting_of options)) plan.now ledger.old (record { society = society }))
        result ledger.new }
{
    export::retraction_signal(plan, ledger, society, options)
}

#[unsafe(no_mangle)]
pub extern "C" fn retraction_fire(
    plan: &[u8],
    ledger: &mut [u16],
    track: u16,
    society: u16,
    options: u32,
) -> u64
    ensures { Returns packed (fire_outcome (terms_of (setting_of options)) plan.now ledger.old
        (record { track = track; society = society })) result ledger.new }
{
    export::retraction_fire(plan, ledger, track, society, options)
}

#[unsafe(no_mangle)]
pub extern "C" fn retraction_ready(plan: &[u8], ledger: &mut [u16], options: u32) -> u64
    ensures { Returns packed_ready (ready_outcome (terms_of (setting_of options)) plan.now ledger.old) result ledger.new }
{
    export::retraction_ready(plan, ledger, options)
}

#[unsafe(no_mangle)]
pub extern "C" fn retraction_entries(plan: &[u8], ledger: &[u16], track: u16, options: u32) -> u64
    ensures { result ≡ packed_part (terms_of (setting_of options)) (entries_part (terms_of (setting_of options)) plan.now ledger.now track) track }
{
    export::retraction_entries(plan, ledger, track, options)
}

#[unsafe(no_mangle)]
pub extern "C" fn retraction_largest(plan: &[u8], track: u16) -> u64
    ensures { result ≡ packed (track_shown plan.now track) }
{
    export::retraction_largest(plan, track)
}

#[unsafe(no_mangle)]
pub extern "C" fn retraction_largest_step(plan: &[u8], track: u16, place: u16) -> u64
    ensures { result ≡ packed (step_shown plan.now track place) }
{
    export::retraction_largest_step(plan, track, place)
}

#[unsafe(no_mangle)]
pub extern "C" fn retraction_date_of_day(day: i32) -> u64
    ensures { result ≡ packed_date (date_of_day day) }
{
    export::retraction_date_of_day(day)
}

#[unsafe(no_mangle)]
pub extern "C" fn retraction_day_of_date(year: u16, month: u16, day: u16) -> u64
    ensures { result ≡ packed_day (day_of_date (record { year = year; month = month; day = day })) }
{
    export::retraction_day_of_date(year, month, day)
}
