// The testbench's commands below the store: hash, vint, unvint, equal, copy, and the bare arena over the first bytes of
// the lent list area.
//
// Each reads its words, makes one call and says what it answered. It promises that it ends and stays inside what is
// lent, whatever the line and the memory are; what the calls answer, the crates below promise. It uses limits, fastcmp,
// fastcpy, murmurhash2, vint, memory_arena, text, say and bench_areas.
#![tactic(auto)]

ghost use Rattle.std.specs.Prelude.{◌≤◌, length, IfOk};

use bench_areas::{Scratch, bytes_at, room_at};
use limits::Refusal;
use memory_arena::{Arena, Room};
use say::{Hex, Unanswered};
use std::io;
use text::fault::Fault;
use text::words;
use vint::Read;

#[derive(Clone, Copy)]
pub enum Command {
    Hash,
    Vint,
    Unvint,
    Equal,
    Copy,
    Allocate,
    Get,
    Put,
}

// `hash SEED BYTES`
fn hash(line: &[u8], scratch: &mut Scratch, out: &impl Print) -> Result<(), Unanswered> {
    let seed = words::u32_at(line, 1)?;
    let bytes = bytes_at(line, 2, &mut scratch.name)?;
    let hash = murmurhash2::murmurhash2(bytes, seed);
    Ok(println!(out; "hash {hash}")?)
}

// `vint N`
fn vint(line: &[u8], out: &impl Print) -> Result<(), Unanswered> {
    let v = vint::serialize_vint_u32(words::u32_at(line, 1)?);
    Ok(println!(out; "vint {}", Hex(v.as_slice()))?)
}

fn say_unvint(read: Result<Read, Refusal>, out: &impl Print) -> io::Result<()> {
    match read {
        Ok(read) => println!(out; "number {} taken {}", read.number, read.taken),
        Err(why) => say::refused(out, why.number()),
    }
}

// `unvint BYTES`
fn unvint(line: &[u8], scratch: &mut Scratch, out: &impl Print) -> Result<(), Unanswered> {
    let bytes = bytes_at(line, 1, &mut scratch.name)?;
    Ok(say_unvint(vint::read_u32_vint(bytes), out)?)
}

// `equal A B`
fn equal(line: &[u8], scratch: &mut Scratch, out: &impl Print) -> Result<(), Unanswered> {
    let a = bytes_at(line, 1, &mut scratch.name)?;
    let b = bytes_at(line, 2, &mut scratch.output)?;
    if fastcmp::fast_short_slice_compare(a, b) {
        println!(out; "equal")?;
    } else {
        println!(out; "different")?;
    }
    Ok(())
}

fn say_copied(copied: Result<(), Refusal>, out: &impl Print) -> io::Result<()> {
    match copied {
        Ok(()) => println!(out; "copied"),
        Err(why) => say::refused(out, why.number()),
    }
}

// `copy A B`: A over B.
fn copy(line: &[u8], scratch: &mut Scratch, out: &impl Print) -> Result<(), Unanswered> {
    let a = bytes_at(line, 1, &mut scratch.name)?;
    let n = words::bytes_at(line, 2, &mut scratch.output)?;
    let output = &mut scratch.output[..];
    let copied = fastcpy::fast_short_slice_copy(a, &mut output[..n]);
    Ok(say_copied(copied, out)?)
}

// ---- the bare arena

// `PAGE USED .. [SIZE]`: an arena; SIZE is word k, the crate's page size where the line ends before it.
fn arena_at(line: &[u8], k: usize) -> Result<Arena, Fault> {
    let [page, used] = words::numbers_at::<2>(line)?;
    let size = words::number_or(line, k, limits::PAGE_SIZE as u64)?;
    Ok(Arena {
        page: page as usize,
        used: used as usize,
        size: size as usize,
    })
}

// The third number of a line: how many bytes of the list area the arena has.
fn length_at(line: &[u8], lists: &[u8]) -> Result<usize, Fault>
    ensures { IfOk result (λ n. n ≤ length lists.now) }
{
    words::length_at(line, 3, lists.len(), Fault::PastTheEnd)
}

fn say_allocated(allocated: Result<Option<Room>, Refusal>, out: &impl Print) -> io::Result<()> {
    match allocated {
        Ok(Some(room)) => {
            println!(out; "at {} {} {}", room.at, room.after.page, room.after.used)
        }
        Ok(None) => println!(out; "no room"),
        Err(why) => say::refused(out, why.number()),
    }
}

// `allocate PAGE USED LENGTH N [SIZE]`
fn allocate(line: &[u8], lists: &[u8], out: &impl Print) -> Result<(), Unanswered> {
    let [_, _, _, n] = words::numbers_at::<4>(line)?;
    let length = length_at(line, lists)?;
    let arena = arena_at(line, 5)?;
    let allocated = arena.allocate_space(length, n as usize);
    Ok(say_allocated(allocated, out)?)
}

// `get PAGE USED LENGTH PLACE N [SIZE]`
fn get(
    line: &[u8],
    lists: &[u8],
    scratch: &mut Scratch,
    out: &impl Print,
) -> Result<(), Unanswered> {
    words::numbers_at::<5>(line)?;
    let place = words::u32_at(line, 4)?;
    let length = length_at(line, lists)?;
    let output = room_at(line, 5, &mut scratch.output, Fault::OutputTooLong)?;
    let arena = arena_at(line, 6)?;
    match arena.read(&lists[..length], place, output) {
        Ok(()) => Hex(output).line(out)?,
        Err(why) => say::refused(out, why.number())?,
    }
    Ok(())
}

fn say_put(put: Result<(), Refusal>, out: &impl Print) -> io::Result<()> {
    match put {
        Ok(()) => println!(out; "put"),
        Err(why) => say::refused(out, why.number()),
    }
}

// `put PAGE USED LENGTH PLACE BYTES [SIZE]`
fn put(
    line: &[u8],
    lists: &mut [u8],
    scratch: &mut Scratch,
    out: &impl Print,
) -> Result<(), Unanswered> {
    words::numbers_at::<4>(line)?;
    let place = words::u32_at(line, 4)?;
    let bytes = bytes_at(line, 5, &mut scratch.name)?;
    let length = length_at(line, lists)?;
    let arena = arena_at(line, 6)?;
    let put = arena.write_at(&mut lists[..length], place, bytes);
    Ok(say_put(put, out)?)
}

pub fn play(
    command: Command,
    line: &[u8],
    lists: &mut [u8],
    scratch: &mut Scratch,
    out: &impl Print,
) -> Result<(), Unanswered> {
    match command {
        Command::Hash => hash(line, scratch, out),
        Command::Vint => vint(line, out),
        Command::Unvint => unvint(line, scratch, out),
        Command::Equal => equal(line, scratch, out),
        Command::Copy => copy(line, scratch, out),
        Command::Allocate => allocate(line, lists, out),
        Command::Get => get(line, lists, scratch, out),
        Command::Put => put(line, lists, scratch, out),
    }
}
