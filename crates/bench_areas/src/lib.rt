// The testbench's commands on the lent areas, as words and bytes from outside: poke, dump, sum; and what commands are
// given: a store's state with what is lent of its memory, and room for the bytes of a line and of an answer.
//
// It promises that each call ends and stays inside what is lent, whatever the line, the state and the memory are. It
// uses murmurhash2, memory_arena and store_state (for the state), text, say and bench_state.
#![tactic(auto)]

use say::{Decimals, Hex, Unanswered};
use std::io;
use store_state::State;
use text::fault::Fault;
use text::words;

#[derive(Clone, Copy)]
pub enum Command {
    Poke,
    Dump,
    Sum,
}

// A store as a command has it that may change it.
#[derive(Drop)]
pub struct Lent<'m> {
    pub state: &'m mut State,
    pub table: &'m mut [u32],
    pub keys: &'m mut [u8],
    pub lists: &'m mut [u8],
}

// A store as a command has it that only reads.
#[derive(Clone, Copy)]
pub struct Seen<'m> {
    pub state: State,
    pub table: &'m [u32],
    pub keys: &'m [u8],
    pub lists: &'m [u8],
}

impl Lent<'_> {
    pub fn seen(&self) -> Seen<'_> {
        Seen {
            state: *self.state,
            table: self.table,
            keys: self.keys,
            lists: self.lists,
        }
    }
}

// Room for the bytes that a line has, and for those that a call gives out.
#[derive(Drop)]
pub struct Scratch {
    pub name: [u8; 262144],
    pub output: [u8; 1048576],
}

// An area by its name.
#[derive(Clone, Copy)]
enum Area {
    Table,
    Keys,
    Lists,
}

fn area_named(name: &[u8]) -> Result<Area, Fault> {
    match name {
        b"table" => Ok(Area::Table),
        b"keys" => Ok(Area::Keys),
        b"lists" => Ok(Area::Lists),
        _ => Err(Fault::NoSuchArea),
    }
}

// The bytes of word k of a line, laid out at the front of a lent area.
pub fn bytes_at<'a>(line: &[u8], k: usize, into: &'a mut [u8]) -> Result<&'a [u8], Fault> {
    let n = words::bytes_at(line, k, into)?;
    Ok(&into[..n])
}

// The first part of an area, as long as word k of a line says; `beyond` is the fault of a longer one.
pub fn room_at<'a, T>(
    line: &[u8],
    k: usize,
    area: &'a mut [T],
    beyond: Fault,
) -> Result<&'a mut [T], Fault> {
    let n = words::length_at(line, k, area.len(), beyond)?;
    Ok(&mut area[..n])
}

// `poke table PLACE WORD`
fn poke_word(line: &[u8], table: &mut [u32]) -> Result<(), Fault> {
    let [place, word] = words::numbers_from::<2>(line, 2)?;
    let word = u32::try_from(word).map_err(|_| Fault::TooLarge)?;
    let place = table.get_mut(place as usize).ok_or(Fault::PastTheEnd)?;
    *place = word;
    Ok(())
}

// Puts bytes at a place of an area.
pub fn poke_bytes(area: &mut [u8], place: u64, bytes: &[u8]) -> Result<(), Fault> {
    let behind = area.get_mut(place as usize..).ok_or(Fault::PastTheEnd)?;
    let part = behind.get_mut(..bytes.len()).ok_or(Fault::PastTheEnd)?;
    part.copy_from_slice(bytes);
    Ok(())
}

// `poke keys PLACE BYTES`
fn poke_area(line: &[u8], area: &mut [u8], scratch: &mut [u8]) -> Result<(), Fault> {
    let place = words::number_at(line, 2)?;
    let bytes = bytes_at(line, 3, scratch)?;
    poke_bytes(area, place, bytes)
}

// `poke AREA PLACE BYTES-or-WORD`
fn poke(
    lent: &mut Lent<'_>,
    line: &[u8],
    scratch: &mut [u8],
    out: &impl Print,
) -> Result<(), Unanswered> {
    match area_named(words::word(line, 1))? {
        Area::Table => poke_word(line, lent.table)?,
        Area::Keys => poke_area(line, lent.keys, scratch)?,
        Area::Lists => poke_area(line, lent.lists, scratch)?,
    }
    Ok(println!(out; "poked")?)
}

// So many items of an area from a place on.
pub fn part<T>(area: &[T], place: u64, count: u64) -> Result<&[T], Fault> {
    let behind = area.get(place as usize..).ok_or(Fault::PastTheEnd)?;
    behind.get(..count as usize).ok_or(Fault::PastTheEnd)
}

// `dump AREA PLACE COUNT`
fn dump(seen: Seen<'_>, line: &[u8], out: &impl Print) -> Result<(), Unanswered> {
    let area = area_named(words::word(line, 1))?;
    let [place, count] = words::numbers_from::<2>(line, 2)?;
    match area {
        Area::Table => println!(out; "{}", Decimals(part(seen.table, place, count)?))?,
        Area::Keys => Hex(part(seen.keys, place, count)?).line(out)?,
        Area::Lists => Hex(part(seen.lists, place, count)?).line(out)?,
    }
    Ok(())
}

// The hash of words as little-endian bytes, which are laid out in a lent area; those that it has no room for are left
// out.
fn hash_words(words: &[u32], scratch: &mut [u8]) -> u32 {
    let n = words.len().min(scratch.len() / 4);
    let bytes = &mut scratch[..4 * n];
    for (place, word) in bytes.chunks_exact_mut(4).zip(words) {
        place.copy_from_slice(&word.to_le_bytes());
    }
    murmurhash2::murmurhash2(bytes, 0)
}

// `sum`
fn sum(seen: Seen<'_>, scratch: &mut [u8], out: &impl Print) -> io::Result<()> {
    let table = hash_words(seen.table, scratch);
    let keys = murmurhash2::murmurhash2(seen.keys, 0);
    let lists = murmurhash2::murmurhash2(seen.lists, 0);
    let state = bench_state::hash(seen.state);
    println!(out; "sum {table} {keys} {lists} {state}")
}

pub fn play(
    command: Command,
    lent: &mut Lent<'_>,
    line: &[u8],
    scratch: &mut Scratch,
    out: &impl Print,
) -> Result<(), Unanswered> {
    match command {
        Command::Poke => poke(lent, line, &mut scratch.name, out),
        Command::Dump => dump(lent.seen(), line, out),
        Command::Sum => Ok(sum(lent.seen(), &mut scratch.output, out)?),
    }
}
