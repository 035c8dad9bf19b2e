// The lines, played on the testbench's stores.
use crate::commands::{self, Command, TABLE};
use bench_both::Bench;
use say::{Passing, Unanswered};
use script::lines::{Line, Lines};
use script::rows;
use std::io;

fn play(
    bench: &mut Bench,
    command: Command,
    line: &[u8],
    out: &impl Print,
) -> Result<(), Unanswered> {
    match command {
        Command::Help => Ok(commands::help(out)?),
        Command::Lend => bench.lend(line, out),
        Command::Walk => Ok(bench.tell_walk(out)?),
        Command::On => bench.on(line, out),
        Command::Join => bench.join(line, out),
        Command::One(command) => bench.play(command, line, out),
        Command::Flat(command) => bench.play_flat(command, line, out),
    }
}

// A line of any kind.
fn play_line(bench: &mut Bench, line: Line<'_>, out: &impl Print) -> Result<(), Unanswered> {
    match rows::find(&TABLE, line)? {
        Some(command) => play(bench, command, line.bytes, out),
        None => Ok(()),
    }
}

// Plays all of standard input.
pub fn run<R: Input + Print>(rt: &R, bench: &mut Bench, area: &mut [u8]) -> io::Result<()> {
    let out = &Passing(rt);
    let mut input = rt.reader();
    let mut lines = Lines::new();
    for _ in 0..u64::MAX {
        let Some(line) = lines.next(&mut input, area) else {
            break;
        };
        say::answered(out, play_line(bench, line, out))?;
    }
    Ok(())
}
