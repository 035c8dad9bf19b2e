// The testbench's commands on lanes of readings: drift, readings.
//
// Each reads its words, makes one call, says what it answered and gives the walk that it told. It promises that it ends
// and stays inside what is lent, whatever the line, the state and the memory are; what the call answers, readings
// promises. It uses memory_arena, store_state and store_append (for the state), readings, text, say, bench_areas and
// bench_write.
#![tactic(auto)]

use bench_areas::{Lent, Scratch, Seen, bytes_at, room_at};
use readings::Recalled;
use say::{Spaced, Unanswered};
use std::io;
use text::fault::Fault;
use text::words;

#[derive(Clone, Copy)]
pub enum Command {
    Drift,
    Recall,
}

// What the places of an output hold before a call.
const UNWRITTEN: i32 = -286331154;

fn magnitude(digits: &[u8]) -> Result<u32, Fault> {
    u32::try_from(words::decimal(digits)?).map_err(|_| Fault::TooLarge)
}

// Word k of a line as a number of 32 bits with a sign, `-` before a negative one.
fn signed_at(line: &[u8], k: usize) -> Result<i32, Fault> {
    let n = match words::word(line, k) {
        [b'-', digits @ ..] => -i64::from(magnitude(digits)?),
        digits => i64::from(magnitude(digits)?),
    };
    i32::try_from(n).map_err(|_| Fault::TooLarge)
}

// `drift NAME LAST READING`
fn drift(
    lent: &mut Lent<'_>,
    line: &[u8],
    scratch: &mut Scratch,
    out: &impl Print,
) -> Result<usize, Unanswered> {
    let name = bytes_at(line, 1, &mut scratch.name)?;
    let last = signed_at(line, 2)?;
    let new = signed_at(line, 3)?;
    let told = readings::append_reading(
        *lent.state,
        lent.table,
        lent.keys,
        lent.lists,
        name,
        last,
        new,
    );
    Ok(bench_write::say_appended(told, lent.state, out)?)
}

// The answer, and what it left of places that were unwritten.
fn say_recalled(recalled: Recalled, places: &[i32], out: &impl Print) -> io::Result<()> {
    match recalled {
        Recalled::Readings(n) => {
            let (given, behind) = places.split_at((n as usize).min(places.len()));
            println!(out;
                "readings {n}{}{}",
                Spaced(given),
                say::kept(behind, UNWRITTEN)
            )
        }
        Recalled::Absent => println!(out; "absent{}", say::kept(places, UNWRITTEN)),
        // from 8 on a refusal tells a count beside its number
        Recalled::Refused(n, count) if 8 <= n => {
            println!(out; "refused {n} {count}{}", say::kept(places, UNWRITTEN))
        }
        Recalled::Refused(n, _) => { println!(out; "refused {n}{}", say::kept(places, UNWRITTEN)) }
    }
}

// `readings NAME ROOM`
fn recall(
    seen: Seen<'_>,
    line: &[u8],
    scratch: &mut Scratch,
    out: &impl Print,
) -> Result<usize, Unanswered> {
    let mut places = [UNWRITTEN; 16384];
    let name = bytes_at(line, 1, &mut scratch.name)?;
    let places = room_at(line, 2, &mut places, Fault::TooManyPlaces)?;
    let told = readings::readings(seen.state, seen.table, seen.keys, seen.lists, name, places);
    say_recalled(told.answer, places, out)?;
    Ok(told.walk)
}

// The walk that the call told.
pub fn play(
    command: Command,
    lent: &mut Lent<'_>,
    line: &[u8],
    scratch: &mut Scratch,
    out: &impl Print,
) -> Result<usize, Unanswered> {
    match command {
        Command::Drift => drift(lent, line, scratch, out),
        Command::Recall => recall(lent.seen(), line, scratch, out),
    }
}
