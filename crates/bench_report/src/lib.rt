// The testbench's commands on shift reports: report, unreport, report-lane.
//
// Each reads its words, makes one call and says what it answered. It promises that it ends and stays inside what is
// lent, whatever the line, the state and the memory are; what the call answers, report and report_read promise. It uses
// memory_arena (the state's type), store_state, report, report_read, text, say and bench_areas.
#![tactic(auto)]

use bench_areas::{Scratch, Seen, bytes_at, room_at};
use limits::Refusal;
use report::Unwritten;
use report_read::check::{BadLine, Lanes};
use report_read::pick::Lane;
use say::{Unanswered, Written};
use std::io;
use text::fault::Fault;
use text::words;

#[derive(Clone, Copy)]
pub enum Command {
    Report,
    Unreport,
    ReportLane,
}

// A report's answer, and what it left of an output that was full of the filler.
fn say_reported(
    reported: Result<u64, Unwritten>,
    output: &[u8],
    out: &impl Print,
) -> io::Result<()> {
    match reported {
        Ok(n) => Written::of(n as usize, output).line(format_args!("report {n}"), out),
        Err(why) => {
            match why {
                Unwritten::Refused(refusal) => print!(out; "refused {}", refusal.number())?,
                Unwritten::TooShort(needed) => {
                    print!(out; "refused {} {needed}", Refusal::OutputTooShort.number())?
                }
            }
            println!(out; "{}", say::kept(output, say::FILLER))
        }
    }
}

// `report ROOM`
fn report(
    seen: Seen<'_>,
    line: &[u8],
    scratch: &mut Scratch,
    out: &impl Print,
) -> Result<(), Unanswered> {
    let output = room_at(line, 1, &mut scratch.output, Fault::OutputTooLong)?;
    output.fill(say::FILLER);
    let reported = report::report(seen.state, seen.table, seen.keys, seen.lists, output);
    Ok(say_reported(reported, output, out)?)
}

// A text that is no report tells its first bad line.
fn say_bad(bad: BadLine, out: &impl Print) -> io::Result<()> {
    println!(out; "refused {} {}", Refusal::NoReport.number(), bad.line)
}

fn say_checked(checked: Result<Lanes, BadLine>, out: &impl Print) -> io::Result<()> {
    match checked {
        Ok(read) => println!(out; "lanes {} {}", read.lanes, read.bytes),
        Err(bad) => say_bad(bad, out),
    }
}

// `unreport BYTES`
fn unreport(line: &[u8], scratch: &mut Scratch, out: &impl Print) -> Result<(), Unanswered> {
    let text = bytes_at(line, 1, &mut scratch.name)?;
    Ok(say_checked(report_read::check::check(text), out)?)
}

// A part of a text, which is hex already; `-` where it is empty.
fn part(text: &[u8], from: usize, n: usize) -> &[u8] {
    if n == 0 {
        return b"-";
    }
    let behind = &text[from.min(text.len())..];
    &behind[..n.min(behind.len())]
}

fn say_picked(
    picked: Result<Option<Lane>, BadLine>,
    text: &[u8],
    out: &impl Print,
) -> io::Result<()> {
    match picked {
        Ok(Some(lane)) => {
            print!(out; "lane ")?;
            out.write_all(part(text, lane.name, lane.name_length))?;
            print!(out; " ")?;
            out.write_all(part(text, lane.bytes, lane.bytes_length))?;
            println!(out)
        }
        Ok(None) => println!(out; "no such lane"),
        Err(bad) => say_bad(bad, out),
    }
}

// `report-lane BYTES INDEX`
fn report_lane(line: &[u8], scratch: &mut Scratch, out: &impl Print) -> Result<(), Unanswered> {
    let text = bytes_at(line, 1, &mut scratch.name)?;
    let index = words::number_at(line, 2)?;
    Ok(say_picked(report_read::pick::pick_lane(text, index), text, out)?)
}

pub fn play(
    command: Command,
    seen: Seen<'_>,
    line: &[u8],
    scratch: &mut Scratch,
    out: &impl Print,
) -> Result<(), Unanswered> {
    match command {
        Command::Report => report(seen, line, scratch, out),
        Command::Unreport => unreport(line, scratch, out),
        Command::ReportLane => report_lane(line, scratch, out),
    }
}
