// Document 02's two worked reports, written by the writer from a store of its own: an empty one, then one with lane A
// and the bytes 1, 2, 3. Each is read back by the reader, lane by lane, and asked for again with too short an output.
// It promises only that it ends and stays in bounds; oracle/report.py made the text that it is held to. It uses limits,
// memory_arena and store_state (for the state), store_create, store_append, report_read, report and say.
#![tactic(auto)]

use limits::Refusal;
use report::Unwritten;
use say::Passing;
use std::io;
use store_append::Appended;
use store_state::State;

fn tell_check(out: &impl Print, text: &[u8]) -> io::Result<()> {
    match report_read::check::check(text) {
        Ok(read) => println!(out; "lanes {} {}", read.lanes, read.bytes),
        Err(bad) => println!(out; "refused {} {}", Refusal::NoReport.number(), bad.line),
    }
}

// The n bytes of a text from a place on; none where they don't all lie in it.
fn part(text: &[u8], from: usize, n: usize) -> &[u8] {
    text.get(from..)
        .and_then(|rest| rest.get(..n))
        .unwrap_or(b"")
}

// How many bytes a part of a text stands for, and the first of them.
fn tell_bytes(out: &impl Print, hex: &[u8]) -> io::Result<()> {
    let mut room = [0; 16];
    match report_read::unhex::unhex(hex, &mut room) {
        Ok(Some(k)) => {
            let first = room[0];
            println!(out; "bytes {k} {first}")
        }
        Ok(None) => println!(out; "no hex"),
        Err(short) => println!(out;
            "refused {} {}",
            Refusal::OutputTooShort.number(),
            short.needed
        ),
    }
}

fn tell_lane(out: &impl Print, text: &[u8], index: u64) -> io::Result<()> {
    match report_read::pick::pick_lane(text, index) {
        Ok(Some(lane)) => {
            let hex = part(text, lane.bytes, lane.bytes_length);
            print!(out; "lane ")?;
            out.write_all(part(text, lane.name, lane.name_length))?;
            print!(out; " ")?;
            out.write_all(hex)?;
            println!(out)?;
            tell_bytes(out, hex)
        }
        Ok(None) => println!(out; "no such lane"),
        Err(bad) => println!(out; "refused {} {}", Refusal::NoReport.number(), bad.line),
    }
}

// The front of the output, as much as was written.
fn show(out: &impl Print, output: &[u8], n: u64) -> io::Result<()> {
    if (output.len() as u64) < n {
        return Ok(());
    }
    let text = &output[..n as usize];
    out.write_all(text)?;
    tell_check(out, text)?;
    tell_lane(out, text, 0)
}

fn print_report(
    out: &impl Print,
    st: State,
    table: &[u32],
    keys: &[u8],
    lists: &[u8],
    output: &mut [u8],
) -> io::Result<()> {
    match report::report(st, table, keys, lists, output) {
        Ok(n) => show(out, output, n),
        Err(Unwritten::TooShort(needed)) => {
            println!(out; "refused {} {needed}", Refusal::OutputTooShort.number())
        }
        Err(Unwritten::Refused(why)) => println!(out; "refused {} 0", why.number()),
    }
}

fn play(
    out: &impl Print,
    table: &mut [u32],
    keys: &mut [u8],
    lists: &mut [u8],
    output: &mut [u8; 256],
) -> io::Result<()> {
    let Ok(st) = store_create::create(1, 7, limits::PAGE_SIZE, table, keys, lists) else {
        return Ok(());
    };
    print_report(out, st, table, keys, lists, output)?;
    let added = store_append::append(st, table, keys, lists, b"A", b"\x01\x02\x03");
    let Appended::Accepted(next) = added.answer else {
        return Ok(());
    };
    print_report(out, next, table, keys, lists, output)?;
    // an output that is too short
    print_report(out, next, table, keys, lists, &mut output[..10])
}

fn main(rt: HostRuntime) {
    let mut table = [7; 18];
    let mut keys = [7; 64];
    let mut lists = [7; 64];
    let mut output = [0; 256];
    // it fails where a pipe is closed, and nobody is left to tell
    let _ = play(
        &Passing(&rt),
        &mut table,
        &mut keys,
        &mut lists,
        &mut output,
    );
}
