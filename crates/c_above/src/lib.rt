// The calls of the crates above the store in C's calling form: the brownout check, the shift report, lanes of readings
// (document 02, Twelve). c_exports gives them their C names: an archive has the exported functions of its own crate
// only.
//
// It promises what specs/Above.antt says, over those crates' own definitions, for any numbers and any areas; a short or
// senseless area is 2. It uses c_told, state_area, and brownout, report and readings.
#![tactic(auto)]

ghost use Rattle.std.specs.Prelude.{◌≡◌};
ghost use Rattle.store_look.specs.Look.{lent};
ghost use Rattle.c_above.specs.Above.{checked_told, check_in, reported_told, report_in, drift_in};
ghost use Rattle.c_above.specs.Above.{recalled_told, readings_in};

use brownout_faults::Checked;
use readings::Recalled;
use report::Unwritten;

const FAULT: u32 = 102;

const KEY_COUNT: u32 = 103;

// ---- the brownout check

fn tell_checked(told: &mut [u32], answer: Checked) -> u32
    ensures { (result, told.new) ≡ checked_told answer told.old }
{
    match answer {
        Checked::Sound => c_told::tell(told, 0, 0, 0),
        Checked::Faulty(i, fault) => c_told::tell(told, FAULT, i as u64, fault),
        Checked::Miscounted => c_told::tell(told, KEY_COUNT, 0, 0),
        Checked::Refused(n, t) => c_told::tell(told, n, t, 0),
    }
}

// Sound, or the first faulty bucket and its first fault.
pub fn check(
    state: &[u8],
    table: &[u32],
    keys: &[u8],
    lists: &[u8],
    marks: &mut [u8],
    told: &mut [u32],
) -> u32
    ensures settled { ((result, told.new), marks.new)
        ≡ check_in state.now (lent table.now keys.now lists.now)
        marks.old told.old }
{
    if !state_area::is_sensible_area(state) {
        return c_told::tell(told, 2, 0, 0);
    }
    let st = state_area::load(state);
    let answer = brownout::check(st, table, keys, lists, marks);
    tell_checked(told, answer)
}

// ---- the shift report

fn tell_reported(told: &mut [u32], answer: Result<u64, Unwritten>) -> u32
    ensures { (result, told.new) ≡ reported_told answer told.old }
{
    match answer {
        Ok(n) => c_told::tell(told, 0, n, 0),
        Err(Unwritten::Refused(refusal)) => c_told::tell(told, refusal.number(), 0, 0),
        Err(Unwritten::TooShort(needed)) => c_told::tell(
            told,
            limits::Refusal::OutputTooShort.number(),
            needed,
            0,
        ),
    }
}

// The report's text to the front of the output.
pub fn report(
    state: &[u8],
    table: &[u32],
    keys: &[u8],
    lists: &[u8],
    output: &mut [u8],
    told: &mut [u32],
) -> u32
    ensures settled { ((result, told.new), output.new)
        ≡ report_in state.now (lent table.now keys.now lists.now)
        output.old told.old }
{
    if !state_area::is_sensible_area(state) {
        return c_told::tell(told, 2, 0, 0);
    }
    let st = state_area::load(state);
    let answer = report::report(st, table, keys, lists, output);
    tell_reported(told, answer)
}

// ---- lanes of readings

// Appends a reading behind the lane's last accepted one.
pub fn drift(
    state: &mut [u8],
    table: &mut [u32],
    keys: &mut [u8],
    lists: &mut [u8],
    name: &[u8],
    last: i32,
    reading: i32,
) -> u32
    ensures settled { ((result, state.new), lent table.new keys.new lists.new)
        ≡ drift_in state.old (lent table.old keys.old lists.old)
        name.now last reading }
{
    if !state_area::is_sensible_area(state) {
        return 2;
    }
    let st = state_area::load(state);
    let r = readings::append_reading(st, table, keys, lists, name, last, reading);
    let answer = r.answer;
    c_told::save_appended(state, answer)
}

fn tell_recalled(told: &mut [u32], answer: Recalled) -> u32
    ensures { (result, told.new) ≡ recalled_told answer told.old }
{
    match answer {
        Recalled::Readings(n) => c_told::tell(told, 0, n, 0),
        Recalled::Absent => c_told::tell(told, c_told::ABSENT, 0, 0),
        Recalled::Refused(n, t) => c_told::tell(told, n, t, 0),
    }
}

// A lane's readings to the front of the output.
pub fn readings(
    state: &[u8],
    table: &[u32],
    keys: &[u8],
    lists: &[u8],
    name: &[u8],
    output: &mut [i32],
    told: &mut [u32],
) -> u32
    ensures settled { ((result, told.new), output.new)
        ≡ readings_in state.now (lent table.now keys.now lists.now)
        name.now output.old told.old }
{
    if !state_area::is_sensible_area(state) {
        return c_told::tell(told, 2, 0, 0);
    }
    let st = state_area::load(state);
    let r = readings::readings(st, table, keys, lists, name, output);
    let answer = r.answer;
    tell_recalled(told, answer)
}
