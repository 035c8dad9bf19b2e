// A lane's bytes behind a count.
use bench_areas::{Scratch, Seen, bytes_at, room_at};
use lane_pieces::Pieced;
use say::{Unanswered, Written};
use std::io;
use text::fault::Fault;
use text::words;

// The answer, and what it left of an output that was full of the filler.
fn say_pieced(pieced: Pieced, output: &[u8], out: &impl Print) -> io::Result<()> {
    match pieced {
        Pieced::Absent => println!(out; "absent{}", say::kept(output, say::FILLER)),
        Pieced::Given(n) => Written::of(n as usize, output).line(format_args!("piece {n}"), out),
        // 8 tells the lane's length beside its number
        Pieced::Refused(8, told) => {
            println!(out; "refused 8 {told}{}", say::kept(output, say::FILLER))
        }
        Pieced::Refused(n, _) => { println!(out; "refused {n}{}", say::kept(output, say::FILLER)) }
    }
}

// `piece NAME GIVEN ROOM`: the walk that it told.
pub fn piece(
    seen: Seen<'_>,
    line: &[u8],
    scratch: &mut Scratch,
    out: &impl Print,
) -> Result<usize, Unanswered> {
    let name = bytes_at(line, 1, &mut scratch.name)?;
    let given = words::number_at(line, 2)?;
    let output = room_at(line, 3, &mut scratch.output, Fault::OutputTooLong)?;
    output.fill(say::FILLER);
    let Seen {
        state,
        table,
        keys,
        lists,
    } = seen;
    let told = lane_pieces::piece(state, table, keys, lists, name, given, output);
    say_pieced(told.answer, output, out)?;
    Ok(told.walk)
}
