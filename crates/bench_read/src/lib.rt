// The testbench's commands that read a store: lookup, length, read, block, show, next, count.
//
// Each reads its words, makes one call and says what it answered; a call by name gives the walk that it told. It
// promises that it ends and stays inside what is lent, whatever the line, the state and the memory are; what the call
// answers, store promises. It uses memory_arena (the state's type), store_state, store_look, text, say and bench_areas.
#![tactic(auto)]

use bench_areas::{Scratch, Seen, bytes_at, room_at};
use say::{Hex, Unanswered, Written};
use std::{fmt, io};
use store_look::{Answer, Counted, Listed, Lookup, Outcome};
use text::fault::Fault;
use text::words;

#[derive(Clone, Copy)]
pub enum Command {
    Lookup,
    Length,
    Read,
    Block,
    Show,
    Next,
    Count,
}

fn say_lookup(answer: Lookup, out: &impl Print) -> io::Result<()> {
    match answer {
        Lookup::At(place) => println!(out; "at {place}"),
        Lookup::Missing => println!(out; "absent"),
        Lookup::Failed(n) => say::refused(out, n),
    }
}

// `lookup NAME`
fn lookup(
    seen: Seen<'_>,
    line: &[u8],
    scratch: &mut Scratch,
    out: &impl Print,
) -> Result<usize, Unanswered> {
    let name = bytes_at(line, 1, &mut scratch.name)?;
    let told = store_look::lane::lookup(seen.state, seen.table, seen.keys, seen.lists, name);
    say_lookup(told.answer, out)?;
    Ok(told.walk)
}

// An answer by name.
#[derive(Clone, Copy)]
struct Said(Answer);

impl fmt::Display for Said {
    fn fmt<W: fmt::Write>(&self, f: &mut fmt::Formatter<W>) -> fmt::Result {
        match self.0 {
            Answer::Absent => f.write_str("absent"),
            Answer::Found(Outcome::Length(n)) => write!(f, "length {n}"),
            Answer::Found(Outcome::Reading(n)) => write!(f, "reading {n}"),
            Answer::Found(Outcome::Block(place, n)) => write!(f, "block {place} {n}"),
            Answer::Found(Outcome::NoSuchBlock) => f.write_str("no such block"),
            // 8 tells a length beside its number
            Answer::Refused(8, told) => write!(f, "refused 8 {told}"),
            Answer::Refused(n, _) => write!(f, "refused {n}"),
        }
    }
}

// `length NAME`
fn length(
    seen: Seen<'_>,
    line: &[u8],
    scratch: &mut Scratch,
    out: &impl Print,
) -> Result<usize, Unanswered> {
    let name = bytes_at(line, 1, &mut scratch.name)?;
    let told = store_look::lane::length(seen.state, seen.table, seen.keys, seen.lists, name);
    println!(out; "{}", Said(told.answer))?;
    Ok(told.walk)
}

// `block NAME INDEX`
fn block(
    seen: Seen<'_>,
    line: &[u8],
    scratch: &mut Scratch,
    out: &impl Print,
) -> Result<usize, Unanswered> {
    let name = bytes_at(line, 1, &mut scratch.name)?;
    let index = words::number_at(line, 2)? as usize;
    let Seen {
        state,
        table,
        keys,
        lists,
    } = seen;
    let told = store_look::lane::find_block(state, table, keys, lists, name, index);
    println!(out; "{}", Said(told.answer))?;
    Ok(told.walk)
}

// A reading's answer, and what it left of an output that was full of the filler.
fn say_reading(answer: Answer, output: &[u8], out: &impl Print) -> io::Result<()> {
    let said = Said(answer);
    match answer {
        Answer::Found(Outcome::Reading(n)) => { Written::of(n as usize, output).line(said, out) }
        Answer::Found(_) => Written::of(0, output).line(said, out),
        _ => println!(out; "{said}{}", say::kept(output, say::FILLER)),
    }
}

// `read NAME ROOM`
fn read(
    seen: Seen<'_>,
    line: &[u8],
    scratch: &mut Scratch,
    out: &impl Print,
) -> Result<usize, Unanswered> {
    let name = bytes_at(line, 1, &mut scratch.name)?;
    let output = room_at(line, 2, &mut scratch.output, Fault::OutputTooLong)?;
    output.fill(say::FILLER);
    let told = store_look::lane::read(seen.state, seen.table, seen.keys, seen.lists, name, output);
    say_reading(told.answer, output, out)?;
    Ok(told.walk)
}

// `show PLACE LENGTH`
fn show(seen: Seen<'_>, line: &[u8], out: &impl Print) -> Result<(), Unanswered> {
    let [_, n] = words::numbers_at::<2>(line)?;
    let place = words::u32_at(line, 1)?;
    let Seen {
        state,
        table,
        keys,
        lists,
    } = seen;
    let shown = store_look::lane::show_block(state, table, keys, lists, place, n as usize);
    Ok(Hex(shown).line(out)?)
}

fn say_listed(listed: Listed, out: &impl Print) -> io::Result<()> {
    match listed {
        Listed::Bucket(i, place) => println!(out; "bucket {i} {place}"),
        Listed::NoMore => println!(out; "none"),
        Listed::Stopped(n) => say::refused(out, n),
    }
}

// `next INDEX`
fn next(seen: Seen<'_>, line: &[u8], out: &impl Print) -> Result<(), Unanswered> {
    let index = words::number_at(line, 1)? as usize;
    let Seen {
        state,
        table,
        keys,
        lists,
    } = seen;
    let listed = store_look::listing::next_occupied(state, table, keys, lists, index);
    Ok(say_listed(listed, out)?)
}

// `count`
fn count(seen: Seen<'_>, out: &impl Print) -> io::Result<()> {
    match store_look::listing::key_count(seen.state, seen.table, seen.keys, seen.lists) {
        Counted::Keys(n) => println!(out; "keys {n}"),
        Counted::Unknown(n) => say::refused(out, n),
    }
}

// The walk that a call by name told.
pub fn play(
    command: Command,
    seen: Seen<'_>,
    line: &[u8],
    scratch: &mut Scratch,
    out: &impl Print,
) -> Result<Option<usize>, Unanswered> {
    match command {
        Command::Lookup => lookup(seen, line, scratch, out).map(Some),
        Command::Length => length(seen, line, scratch, out).map(Some),
        Command::Read => read(seen, line, scratch, out).map(Some),
        Command::Block => block(seen, line, scratch, out).map(Some),
        Command::Show => show(seen, line, out).map(|()| None),
        Command::Next => next(seen, line, out).map(|()| None),
        Command::Count => {
            count(seen, out)?;
            Ok(None)
        }
    }
}
