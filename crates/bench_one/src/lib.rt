// The testbench's commands on one store, each by the library that has it.
//
// It promises that each command ends and stays inside what is lent, whatever the line, the state and the memory are;
// what the calls answer, the crates below promise. It uses the libraries of the commands, say, and memory_arena and
// store_state for the state.
#![tactic(auto)]

use bench_areas::{Lent, Scratch};
use say::Unanswered;

#[derive(Clone, Copy)]
pub enum Command {
    Write(bench_write::Command),
    Read(bench_read::Command),
    State(bench_state::Command),
    Areas(bench_areas::Command),
    Lower(bench_lower::Command),
    Report(bench_report::Command),
    Readings(bench_readings::Command),
    Pieces(bench_pieces::Command),
    Check,
}

// The walk that a call by name told.
pub fn play(
    command: Command,
    lent: &mut Lent<'_>,
    line: &[u8],
    scratch: &mut Scratch,
    out: &impl Print,
) -> Result<Option<usize>, Unanswered> {
    match command {
        Command::Write(command) => return bench_write::play(command, lent, line, scratch, out),
        Command::Read(command) => return bench_read::play(command, lent.seen(), line, scratch, out),
        Command::Pieces(command) => {
            return bench_pieces::play(command, lent.seen(), line, scratch, out);
        }
        Command::Readings(command) => {
            return bench_readings::play(command, lent, line, scratch, out).map(Some);
        }
        Command::State(command) => bench_state::play(command, lent.state, line, out)?,
        Command::Areas(command) => bench_areas::play(command, lent, line, scratch, out)?,
        Command::Lower(command) => bench_lower::play(command, line, lent.lists, scratch, out)?,
        Command::Report(command) => bench_report::play(command, lent.seen(), line, scratch, out)?,
        Command::Check => bench_check::check(lent.seen(), line, scratch, out)?,
    }
    Ok(None)
}
