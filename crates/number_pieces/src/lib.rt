// Numbers out of a lane's bytes that come in pieces, cut anywhere (document 02, Six).
//
// It promises that the numbers, a refusal and its place don't depend on where the bytes are cut, nor does the state to
// go on with. specs/Run.antt says what bytes come to, byte by byte, with each whole vint the vint reader's;
// specs/Feed.antt what a call answers; specs/Promises.antt what is proved of it. It uses vint and limits, and numbers
// and spans in contracts and proofs alone.
#![tactic(auto)]

ghost use Rattle.std.specs.Prelude.{◌≡◌, true, [], ◌∷◌, ◌++◌, ◌+◌, ◌-◌, ◌≤◌, ◌<◌, length, take, replicate};
ghost use Rattle.limits.specs.Limits.{held_limit, fed_limit};
ghost use Rattle.limits.specs.Refusals.{feeding_piece, permitted};
ghost use Rattle.vint.specs.Vint.{read_vint};
ghost use Rattle.number_pieces.specs.Feed.{no_top, takes, out, stopped, feed_of};
ghost use Rattle.number_pieces.specs.Said.{said_fed};
ghost use Rattle.number_pieces.specs.Turn.{turned, begun, turn_of, turns_of, finish_of};

use limits::Refusal;
use vint::Read;

// The number reader's state between two pieces: the bytes of a cut vint, how many they are, and the bytes fed so far.
#[derive(Clone, Copy)]
pub struct Pieces {
    pub held: [u8; limits::HELD_LIMIT],
    pub count: usize,
    pub fed: u32,
}

// Why it doesn't go on, and what that tells: the places that 8 needs, the place of 11 and 12.
#[derive(Clone, Copy, Debug, PartialEq, Eq)]
pub struct Stop {
    pub refusal: Refusal,
    pub told: u64,
}

// The state, how many numbers stand at the output's front, and why it doesn't go on, if it doesn't.
#[derive(Clone, Copy)]
pub struct Fed {
    pub state: Pieces,
    pub numbers: usize,
    pub stop: Option<Stop>,
}

// What a call has come to: held bytes, numbers given, bytes taken, and why the next byte can't be taken, if it can't.
#[derive(Clone, Copy)]
struct Run {
    held: [u8; limits::HELD_LIMIT],
    count: usize,
    numbers: usize,
    taken: usize,
    fault: Option<Refusal>,
}

// Whether none of some bytes has the top bit.
fn is_low(bytes: &[u8]) -> bool
    ensures { result ≡ no_top bytes.now }
{
    bytes.iter().all(|b| *b < 128)
}

// Whether a piece of n bytes can be taken.
fn does_take(st: Pieces, n: usize) -> bool
    ensures { result ≡ takes st n }
{
    if limits::HELD_LIMIT < st.count {
        return false;
    }
    if !is_low(&st.held[..st.count]) {
        return false;
    }
    n <= ((limits::FED_LIMIT - st.fed) as usize)
}

// The vint reader's answer to held bytes and one behind them.
fn read_behind(held: [u8; limits::HELD_LIMIT], count: usize, b: u8) -> Result<Read, Refusal>
    requires { count ≤ held_limit }
    ensures { result ≡ read_vint (take count held ++ (b ∷ [])) }
{
    let mut whole = [0; limits::VINT_LIMIT];
    whole[..limits::HELD_LIMIT].copy_from_slice(&held);
    whole[count] = b;
    vint::read_u32_vint(&whole[..count + 1])
}

// One byte more.
fn turn(s: Run, b: u8, output: &mut [u32]) -> Run
    requires { (s.count ≤ held_limit) × ((s.numbers < length output.old) × (s.taken < fed_limit)) }
    ensures { turned result output.new ≡ turn_of s b output.old }
{
    let count = s.count;
    if (b < 128) & (count < limits::HELD_LIMIT) {
        let mut held = s.held;
        held[count] = b;
        return Run {
            held,
            count: count + 1,
            taken: s.taken + 1,
            fault: None,
            ..s
        };
    }
    match read_behind(s.held, count, b) {
        Ok(read) => {
            output[s.numbers] = read.number;
            Run {
                count: 0,
                numbers: s.numbers + 1,
                taken: s.taken + 1,
                fault: None,
                ..s
            }
        }
        Err(r) => Run {
            fault: Some(r),
            ..s
        },
    }
}

// All bytes of a piece, up to a fault.
fn take_bytes(st: Pieces, piece: &[u8], output: &mut [u32]) -> Run
    requires { (st.count ≤ held_limit)
        × ((length piece.now ≤ length output.old) × (length piece.now ≤ fed_limit)) }
    ensures { turned result output.new
        ≡ turns_of (begun st) piece.now output.old }
{
    let held = st.held;
    let mut s = Run {
        held,
        count: st.count,
        numbers: 0,
        taken: 0,
        fault: None,
    };
    for &b in piece {
        s = turn(s, b, output);
        if s.fault.is_some() {
            return s;
        }
    }
    s
}

// Held bytes with zeros behind them.
fn cleared(held: [u8; limits::HELD_LIMIT], count: usize) -> [u8; limits::HELD_LIMIT]
    requires { count ≤ held_limit }
    ensures { result ≡ take count held ++ replicate (held_limit - count) 0 }
{
    let mut h = held;
    h[count..].fill(0);
    h
}

// What a call answers whose bytes are all taken, or that has met a fault.
#[tactic(auto, unfolding(crate::specs::Turn::finish_of))]
fn finish(st: Pieces, s: Run, last: bool) -> Fed
    requires { (s.count ≤ held_limit) × (st.fed + s.taken ≤ fed_limit) }
    ensures { result ≡ finish_of st s last }
{
    let count = s.count;
    let numbers = s.numbers;
    let fed = st.fed + (s.taken as u32);
    if let Some(refusal) = s.fault {
        return stopped(st, numbers, refusal, fed as u64);
    }
    if last & (0 < count) {
        return stopped(st, numbers, Refusal::NoEnd, fed as u64);
    }
    let mut state = st;
    if s.taken != 0 {
        state = Pieces {
            held: cleared(s.held, count),
            count,
            fed,
        };
    }
    Fed {
        state,
        numbers,
        stop: None,
    }
}

// What a call answers that stops: the state comes back equal.
fn stopped(state: Pieces, numbers: usize, refusal: Refusal, told: u64) -> Fed
    ensures { result ≡ stopped state numbers refusal told }
{
    Fed {
        state,
        numbers,
        stop: Some(Stop { refusal, told }),
    }
}

// Feeds one piece: the numbers of its vints to the output's front. `last` says that the lane ends behind it.
pub fn feed(st: Pieces, piece: &[u8], last: bool, output: &mut [u32]) -> Fed
    ensures settled { out result output.new
        ≡ feed_of st piece.now last output.old }
    ensures numbered { permitted feeding_piece (said_fed result) ≡ true }
{
    let n = piece.len();
    if !does_take(st, n) {
        return stopped(st, 0, Refusal::NotWhole, 0);
    }
    if output.len() < n {
        return stopped(st, 0, Refusal::OutputTooShort, n as u64);
    }
    let s = take_bytes(st, piece, output);
    finish(st, s, last)
}
