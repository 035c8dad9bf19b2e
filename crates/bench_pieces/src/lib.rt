// The testbench's commands on pieces: piece, feed.
//
// Each reads its words, makes one call and says what it answered. It promises that it ends and stays inside what is
// lent, whatever the line, the state and the memory are; what the calls answer, lane_pieces and number_pieces promise.
// It uses memory_arena (the state's type), store_state, lane_pieces, number_pieces, text, say and bench_areas.
#![tactic(auto)]

mod feed; // feed.rt: numbers out of a lane that comes in pieces
mod lane; // lane.rt: piece, a lane's bytes behind a count

use bench_areas::{Scratch, Seen};
use say::Unanswered;

#[derive(Clone, Copy)]
pub enum Command {
    Piece,
    Feed,
}

// The walk that a call by name told.
pub fn play(
    command: Command,
    seen: Seen<'_>,
    line: &[u8],
    scratch: &mut Scratch,
    out: &impl Print,
) -> Result<Option<usize>, Unanswered> {
    match command {
        Command::Piece => lane::piece(seen, line, scratch, out).map(Some),
        Command::Feed => feed::feed(line, &mut scratch.name, out).map(|()| None),
    }
}
