// How much to lend for a shift: rows `LANES BYTES PAGE NAMEBYTES` on standard input, decimal, one space apart, a row a
// line. For each it prints `capacity C words W key-bytes K list-bytes L`, `too much` or `no such page` (document 02,
// Fourteen). It promises only that it ends and stays in bounds; what it says is proved of `lending::lend_for`, and that
// it is enough, in shift_cost. It uses lending, text, say and script.
#![tactic(auto)]

use lending::Lend;
use say::{Passing, Unanswered};
use script::lines::Lines;
use std::io;
use text::words;

fn say_lend(out: &impl Print, lend: Lend) -> io::Result<()> {
    match lend {
        Lend::Areas(capacity, table, keys, lists) => {
            println!(out; "capacity {capacity} words {table} key-bytes {keys} list-bytes {lists}")
        }
        Lend::TooMuch => println!(out; "too much"),
        Lend::NoSuchPage => println!(out; "no such page"),
    }
}

// The answer to a row.
fn tell(out: &impl Print, line: &[u8]) -> Result<(), Unanswered> {
    let [lanes, bytes, page, longest] = words::numbers_from::<4>(line, 0)?;
    say_lend(out, lending::lend_for(lanes, bytes, longest, page))?;
    Ok(())
}

// All rows of standard input; an empty line is none.
fn run<R: Input + Print>(rt: &R, area: &mut [u8]) -> io::Result<()> {
    let out = &Passing(rt);
    let mut input = rt.reader();
    let mut lines = Lines::new();
    for _ in 0..u64::MAX {
        let Some(line) = lines.next(&mut input, area) else {
            break;
        };
        if !line.bytes.is_empty() {
            say::answered(out, tell(out, line.bytes))?;
        }
    }
    Ok(())
}

fn main(rt: HostRuntime) {
    let mut line = [0; 65536];
    // it fails where a pipe is closed, and nobody is left to tell
    let _ = run(&rt, &mut line);
}
