// A lane's bytes as readings, byte by byte (document 02, Four).
//
// specs/Readings.antt says what the bytes of readings are and what bytes come to: the vint reader is asked again and
// again. The code takes the bytes as they come, a block at a time: it holds those of a vint until its last, and asks
// the reader then; so vints may lie across blocks. specs/Run.antt says what a byte does, and proofs/Came.antt that all
// together come to what specs/Readings.antt says. take_bytes has a `requires`: it is an inner function of the crate
// readings. It uses limits, vint and signed, and numbers in proofs alone.
#![tactic(auto)]

ghost use Rattle.std.specs.Prelude.{◌≡◌, ◌+◌, ◌≤◌, ◌<◌, ◌^◌, length, set};
ghost use Rattle.limits.specs.Limits.{vint_limit};
ghost use Rattle.reading_run.specs.Run.{out, begun, on_number, on_read, turn_of, run_of, end_of};

use limits::Refusal;
use vint::Read;

// What bytes have come to so far: those held of a vint and how many, the last reading, how many readings there were,
// and why no byte behind them matters.
#[derive(Clone, Copy)]
pub struct Run {
    pub held: [u8; limits::VINT_LIMIT],
    pub count: usize,
    pub last: i32,
    pub readings: usize,
    pub fault: Option<Refusal>,
}

// Before the first byte: nothing is held, and the last reading is 0.
pub fn begin() -> Run
    ensures { result ≡ begun }
{
    Run {
        held: [0; limits::VINT_LIMIT],
        count: 0,
        last: 0,
        readings: 0,
        fault: None,
    }
}

// Puts a reading at a place of the output, if it has that place.
fn put(output: &mut [i32], at: usize, r: i32)
    ensures { output.new ≡ set output.old at r }
{
    if at < output.len() {
        output[at] = r;
    }
}

// A whole vint's number: the next reading.
fn on_number(u: u32, s: Run, output: &mut [i32]) -> Run
    requires { s.readings < 2 ^ 40 }
    ensures { out result output.new ≡ on_number u s output.old }
{
    let last = signed::following(s.last, signed::decode(u));
    put(output, s.readings, last);
    Run {
        count: 0,
        last,
        readings: s.readings + 1,
        fault: None,
        ..s
    }
}

// What follows from the vint reader's answer. A refusal ends the run: the bytes behind it don't matter.
fn on_read(a: Result<Read, Refusal>, s: Run, output: &mut [i32]) -> Run
    requires { s.readings < 2 ^ 40 }
    ensures { out result output.new ≡ on_read a s output.old }
{
    match a {
        Ok(read) => on_number(read.number, s, output),
        Err(r) => Run {
            count: 0,
            fault: Some(r),
            ..s
        },
    }
}

// One byte more.
#[tactic(auto, unfolding(crate::specs::Run::turn_of))]
fn turn(s: Run, b: u8, output: &mut [i32]) -> Run
    requires { (s.count < vint_limit) × (s.readings < 2 ^ 40) }
    ensures { out result output.new ≡ turn_of s b output.old }
{
    if s.fault.is_some() {
        return s;
    }
    let mut held = s.held;
    held[s.count] = b;
    let end = s.count + 1;
    let t = Run {
        held,
        count: end,
        fault: None,
        ..s
    };
    if (b < 128) & (end < limits::VINT_LIMIT) {
        return t;
    }
    on_read(vint::read_u32_vint(&held[..end]), t, output)
}

// Bytes that follow one another, of a lane or of one of its blocks.
pub fn take_bytes(s: Run, bytes: &[u8], output: &mut [i32]) -> Run
    requires { (s.count < vint_limit) × (s.readings + length bytes.now < 2 ^ 40) }
    ensures { out result output.new ≡ run_of s bytes.now output.old }
{
    let mut t = s;
    for &b in bytes {
        t = turn(t, b, output);
    }
    t
}

// How a run over all bytes of a lane ends: why it was refused, if it was. Held bytes are a vint without an end.
pub fn end_of(s: Run) -> Option<Refusal>
    ensures { result ≡ end_of s }
{
    if s.fault.is_some() {
        return s.fault;
    }
    if s.count == 0 {
        return None;
    }
    Some(Refusal::NoEnd)
}
