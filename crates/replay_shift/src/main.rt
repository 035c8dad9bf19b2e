// Replays whole shifts: each is a script of appends, gathered from standard input and played in one call on memory of
// this program's own, 64 words and twice 4,096 bytes of a5. Then each lane that a line names is read.
//
// A script's bytes stand in the input as hex: for each append name length (2 bytes, little-endian), name, byte length
// (4), bytes. It promises only that it ends and stays in bounds; what a replay leaves, crate replay promises. The file
// stdout has the answers of oracle/replay.py. It uses limits, memory_arena and store_state (for the state), replay,
// text, say, script, bench_state, bench_areas, bench_lent and bench_read.
#![tactic(auto)]

use bench_areas::{Lent, Scratch};
use bench_lent::Store;
use limits::Refusal;
use say::{Passing, Unanswered};
use script::lines::{Line, Lines};
use script::rows;
use std::io;
use store_state::State;
use text::words;

// The commands; the last three are the testbench's.
#[derive(Clone, Copy)]
enum Command {
    Script,
    Replay,
    Read,
    State,
    Sum,
}

const TABLE: [(Command, &str); 5] = [
    (Command::Script, "script BYTES"),
    (Command::Replay, "replay CAPACITY SEED [SIZE]"),
    (Command::Read, "read NAME ROOM"),
    (Command::State, "state"),
    (Command::Sum, "sum"),
];

// The store as the last replay left it, and how many bytes of the next script are gathered.
#[derive(Drop)]
struct Shift {
    store: Store<64, 4096, 4096>,
    script: [u8; 262144],
    gathered: usize,
    scratch: Scratch,
}

fn say_replayed(
    made: Result<State, Refusal>,
    state: &mut State,
    out: &impl Print,
) -> io::Result<()> {
    match made {
        Ok(played) => {
            *state = played;
            println!(out; "replayed")
        }
        Err(why) => say::refused(out, why.number()),
    }
}

impl Shift {
    // `script BYTES`: more of the next script.
    fn gather(&mut self, line: &[u8], out: &impl Print) -> Result<(), Unanswered> {
        let from = self.gathered.min(self.script.len());
        let script = &mut self.script[..];
        let gathered = from + words::bytes_at(line, 1, &mut script[from..])?;
        self.gathered = gathered;
        Ok(println!(out; "script {gathered}")?)
    }

    // `replay CAPACITY SEED [SIZE]`: plays what is gathered.
    fn replay(&mut self, line: &[u8], out: &impl Print) -> Result<(), Unanswered> {
        let [capacity, _] = words::numbers_at::<2>(line)?;
        let seed = words::u32_at(line, 2)?;
        let size = words::number_or(line, 3, limits::PAGE_SIZE as u64)?;
        let gathered = self.gathered.min(self.script.len());
        self.gathered = 0;
        let script = &self.script[..gathered];
        let Lent {
            state,
            table,
            keys,
            lists,
        } = self.store.lent();
        let made = replay::replay(
            capacity as usize,
            seed,
            size as usize,
            table,
            keys,
            lists,
            script,
        );
        Ok(say_replayed(made, state, out)?)
    }

    fn play(&mut self, command: Command, line: &[u8], out: &impl Print) -> Result<(), Unanswered> {
        match command {
            Command::Script => self.gather(line, out),
            Command::Replay => self.replay(line, out),
            Command::Read => {
                let lent = self.store.lent();
                let command = bench_read::Command::Read;
                bench_read::play(command, lent.seen(), line, &mut self.scratch, out).map(|_| ())
            }
            Command::State => {
                let command = bench_state::Command::State;
                bench_state::play(command, &mut self.store.state, line, out)
            }
            Command::Sum => {
                let lent = &mut self.store.lent();
                let command = bench_areas::Command::Sum;
                bench_areas::play(command, lent, line, &mut self.scratch, out)
            }
        }
    }

    // A line of any kind.
    fn play_line(&mut self, line: Line<'_>, out: &impl Print) -> Result<(), Unanswered> {
        match rows::find(&TABLE, line)? {
            Some(command) => self.play(command, line.bytes, out),
            None => Ok(()),
        }
    }
}

// Plays all of standard input.
fn run<R: Input + Print>(rt: &R, shift: &mut Shift, area: &mut [u8]) -> io::Result<()> {
    let out = &Passing(rt);
    let mut input = rt.reader();
    let mut lines = Lines::new();
    for _ in 0..u64::MAX {
        let Some(line) = lines.next(&mut input, area) else {
            break;
        };
        say::answered(out, shift.play_line(line, out))?;
    }
    Ok(())
}

fn main(rt: HostRuntime) {
    let mut shift = Shift {
        store: Store {
            state: bench_state::zeros(),
            table: [0xa5a5a5a5; 64],
            keys: [0xa5; 4096],
            lists: [0xa5; 4096],
            words: 64,
            key_bytes: 4096,
            list_bytes: 4096,
        },
        script: [0; 262144],
        gathered: 0,
        scratch: Scratch {
            name: [0; 262144],
            output: [0; 1048576],
        },
    };
    let mut line = [0; 65536];
    // it fails where a pipe is closed, and nobody is left to tell
    let _ = run(&rt, &mut shift, &mut line);
}
