// The testbench's command on the brownout check: check.
//
// It reads its words, makes the call with a part of the output as the mark area, and says what it answered and what the
// area holds then. It promises that it ends and stays inside what is lent, whatever the line, the state and the memory
// are; what the call answers, brownout promises. It uses memory_arena (the state's type), store_state, brownout_faults,
// brownout, text, say and bench_areas.
#![tactic(auto)]

use bench_areas::{Scratch, Seen, room_at};
use brownout_faults::Checked;
use say::Unanswered;
use std::fmt;
use text::fault::Fault;
use text::words;

#[derive(Clone, Copy)]
struct Said(Checked);

impl fmt::Display for Said {
    fn fmt<W: fmt::Write>(&self, f: &mut fmt::Formatter<W>) -> fmt::Result {
        match self.0 {
            Checked::Sound => write!(f, "sound"),
            Checked::Faulty(i, fault) => write!(f, "bucket {i} fault {fault}"),
            Checked::Miscounted => write!(f, "key count"),
            // 8 tells the bytes needed
            Checked::Refused(8, told) => write!(f, "refused 8 {told}"),
            Checked::Refused(n, _) => write!(f, "refused {n}"),
        }
    }
}

// What the mark area holds, which was filled with a byte before.
fn holds(marks: &[u8], filler: u8) -> &'static str {
    if say::is_all(marks, 0) {
        "zero"
    } else if say::is_all(marks, filler) {
        "kept"
    } else {
        "marked"
    }
}

// `check MARKBYTES HH`
pub fn check(
    seen: Seen<'_>,
    line: &[u8],
    scratch: &mut Scratch,
    out: &impl Print,
) -> Result<(), Unanswered> {
    let marks = room_at(line, 1, &mut scratch.output, Fault::OutputTooLong)?;
    let filler = words::byte_at(line, 2)?;
    marks.fill(filler);
    let checked = brownout::check(seen.state, seen.table, seen.keys, seen.lists, marks);
    Ok(println!(out; "{} {}", Said(checked), holds(marks, filler))?)
}
