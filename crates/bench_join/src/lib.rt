// The testbench's command that joins its second store onto the first: join.
//
// It reads its word, makes one call and says what it answered. It promises that it ends and stays inside what is lent,
// whatever the line, the states and the memory are; what the call answers, join promises. It uses memory_arena (the
// state's type), murmurhash2, store_state, join, text, say and bench_areas.
#![tactic(auto)]

use bench_areas::{Lent, Scratch, Seen, room_at};
use join::Joined;
use say::Unanswered;
use std::io;
use store_state::State;
use text::fault::Fault;

// The answer, the first store's state, and the hash of what the join left in its scratch. A refusal tells how many lanes
// went across before it.
fn say_joined(
    joined: Joined,
    state: &mut State,
    scratch: &[u8],
    out: &impl Print,
) -> io::Result<()> {
    let hash = murmurhash2::murmurhash2(scratch, 0);
    match joined {
        Joined::Whole(next, lanes) => {
            *state = next;
            println!(out; "joined {lanes} scratch {hash}")
        }
        Joined::Halted(next, n, lanes) => {
            *state = next;
            println!(out; "refused {n} after {lanes} scratch {hash}")
        }
    }
}

// `join ROOM`
pub fn join(
    one: &mut Lent<'_>,
    two: Seen<'_>,
    line: &[u8],
    scratch: &mut Scratch,
    out: &impl Print,
) -> Result<(), Unanswered> {
    let output = room_at(line, 1, &mut scratch.output, Fault::OutputTooLong)?;
    output.fill(say::FILLER);
    let state = *one.state;
    let joined = join::join(
        state, one.table, one.keys, one.lists, two.state, two.table, two.keys, two.lists, output,
    );
    Ok(say_joined(joined, one.state, output, out)?)
}
