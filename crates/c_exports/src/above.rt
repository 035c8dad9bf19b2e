// The calls of the crates above the store: the brownout check, the shift report, lanes of readings. The work is in
// c_above; here they get their C names.
ghost use Rattle.std.specs.Prelude.{◌≡◌};
ghost use Rattle.store_look.specs.Look.{lent};
ghost use Rattle.c_above.specs.Above.{check_in, report_in, drift_in, readings_in};

// Sound, or the first faulty bucket and its first fault.
#[unsafe(no_mangle)]
pub extern "C" fn nuvrisel_check(
    state: &[u8],
    table: &[u32],
    keys: &[u8],
    lists: &[u8],
    marks: &mut [u8],
    told: &mut [u32],
) -> u32
    ensures settled { ((result, told.new), marks.new)
        ≡ check_in state.now (lent table.now keys.now lists.now)
        marks.old told.old }
{
    c_above::check(state, table, keys, lists, marks, told)
}

// The report's text to the front of the output.
#[unsafe(no_mangle)]
pub extern "C" fn nuvrisel_report(
    state: &[u8],
    table: &[u32],
    keys: &[u8],
    lists: &[u8],
    output: &mut [u8],
    told: &mut [u32],
) -> u32
    ensures settled { ((result, told.new), output.new)
        ≡ report_in state.now (lent table.now keys.now lists.now)
        output.old told.old }
{
    c_above::report(state, table, keys, lists, output, told)
}

// Appends a reading behind the lane's last accepted one.
#[unsafe(no_mangle)]
pub extern "C" fn nuvrisel_drift(
    state: &mut [u8],
    table: &mut [u32],
    keys: &mut [u8],
    lists: &mut [u8],
    name: &[u8],
    last: i32,
    reading: i32,
) -> u32
    ensures settled { ((result, state.new), lent table.new keys.new lists.new)
        ≡ drift_in state.old (lent table.old keys.old lists.old)
        name.now last reading }
{
    c_above::drift(state, table, keys, lists, name, last, reading)
}

// A lane's readings to the front of the output.
#[unsafe(no_mangle)]
pub extern "C" fn nuvrisel_readings(
    state: &[u8],
    table: &[u32],
    keys: &[u8],
    lists: &[u8],
    name: &[u8],
    output: &mut [i32],
    told: &mut [u32],
) -> u32
    ensures settled { ((result, told.new), output.new)
        ≡ readings_in state.now (lent table.now keys.now lists.now)
        name.now output.old told.old }
{
    c_above::readings(state, table, keys, lists, name, output, told)
}
