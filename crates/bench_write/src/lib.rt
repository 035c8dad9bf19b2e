// The testbench's commands that write a store: create, append.
//
// Each reads its words, makes one call and says what it answered. It promises that it ends and stays inside what is
// lent, whatever the line, the state and the memory are; what the call answers, store promises. It uses limits,
// memory_arena, store_state, store_create and store_append (for the state), text, say and bench_areas.
#![tactic(auto)]

use bench_areas::{Lent, Scratch, bytes_at};
use limits::Refusal;
use say::Unanswered;
use std::io;
use store_append::{Appended, ToldAppend};
use store_state::State;
use text::words;

#[derive(Clone, Copy)]
pub enum Command {
    Create,
    Append,
}

fn say_created(
    created: Result<State, Refusal>,
    state: &mut State,
    out: &impl Print,
) -> io::Result<()> {
    match created {
        Ok(fresh) => {
            *state = fresh;
            println!(out; "created")
        }
        Err(why) => say::refused(out, why.number()),
    }
}

// `create CAPACITY SEED [SIZE]`
fn create(lent: &mut Lent<'_>, line: &[u8], out: &impl Print) -> Result<(), Unanswered> {
    let [capacity, _] = words::numbers_at::<2>(line)?;
    let seed = words::u32_at(line, 2)?;
    let size = words::number_or(line, 3, limits::PAGE_SIZE as u64)?;
    let table = &mut lent.table[..];
    let keys = &mut lent.keys[..];
    let lists = &mut lent.lists[..];
    let created = store_create::create(capacity as usize, seed, size as usize, table, keys, lists);
    Ok(say_created(created, lent.state, out)?)
}

// An append's answer: its walk.
pub fn say_appended(told: ToldAppend, state: &mut State, out: &impl Print) -> io::Result<usize> {
    match told.answer {
        Appended::Accepted(next) => {
            *state = next;
            println!(out; "accepted")?;
        }
        Appended::Declined(same, n) => {
            *state = same;
            say::refused(out, n)?;
        }
    }
    Ok(told.walk)
}

// `append NAME BYTES`: the walk that it told.
fn append(
    lent: &mut Lent<'_>,
    line: &[u8],
    scratch: &mut Scratch,
    out: &impl Print,
) -> Result<usize, Unanswered> {
    let name = bytes_at(line, 1, &mut scratch.name)?;
    let bytes = bytes_at(line, 2, &mut scratch.output)?;
    let told = store_append::append(*lent.state, lent.table, lent.keys, lent.lists, name, bytes);
    Ok(say_appended(told, lent.state, out)?)
}

// The walk that a call by name told.
pub fn play(
    command: Command,
    lent: &mut Lent<'_>,
    line: &[u8],
    scratch: &mut Scratch,
    out: &impl Print,
) -> Result<Option<usize>, Unanswered> {
    match command {
        Command::Create => {
            create(lent, line, out)?;
            Ok(None)
        }
        Command::Append => Ok(Some(append(lent, line, scratch, out)?)),
    }
}
