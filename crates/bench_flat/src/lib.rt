// The testbench's commands on the flat store: flat-lend, flat-used, flat-append, flat-lookup, flat-length, flat-read,
// flat-poke, flat-dump, flat-sum.
//
// Each reads its words, makes at most one call and says what it answered. It promises that it ends and stays inside
// what is lent, whatever the line, the used count and the buffer are; what the call answers, flat_store promises. It
// uses limits, murmurhash2, flat_store, text, say and bench_areas.
#![tactic(auto)]

use bench_areas::{Scratch, bytes_at, part, poke_bytes, room_at};
use flat_store::NotRead;
use limits::Refusal;
use say::{Hex, Unanswered, Written};
use std::io;
use text::fault::Fault;
use text::words;

#[derive(Clone, Copy)]
pub enum Command {
    Lend,
    Used,
    Append,
    Lookup,
    Length,
    Read,
    Poke,
    Dump,
    Sum,
}

// The flat store: its memory, how much of that is the lent buffer, and how much of the buffer is used.
#[derive(Clone, Copy)]
pub struct Flat<const N: usize> {
    pub memory: [u8; N],
    pub lent: usize,
    pub used: usize,
}

fn say_lookup(found: Result<bool, Refusal>, out: &impl Print) -> io::Result<()> {
    match found {
        Ok(true) => println!(out; "standing"),
        Ok(false) => println!(out; "absent"),
        Err(why) => say::refused(out, why.number()),
    }
}

fn say_length(length: Result<Option<u64>, Refusal>, out: &impl Print) -> io::Result<()> {
    match length {
        Ok(Some(n)) => println!(out; "length {n}"),
        Ok(None) => println!(out; "absent"),
        Err(why) => say::refused(out, why.number()),
    }
}

// A reading's answer, and what it left of an output that was full of the filler.
fn say_reading(
    reading: Result<Option<u64>, NotRead>,
    output: &[u8],
    out: &impl Print,
) -> io::Result<()> {
    match reading {
        Ok(Some(n)) => Written::of(n as usize, output).line(format_args!("reading {n}"), out),
        Ok(None) => println!(out; "absent{}", say::kept(output, say::FILLER)),
        Err(NotRead::TooShort(needed)) => {
            println!(out;
                "refused {} {needed}{}",
                Refusal::OutputTooShort.number(),
                say::kept(output, say::FILLER)
            )
        }
        Err(NotRead::Refused(why)) => println!(out;
            "refused {}{}",
            why.number(),
            say::kept(output, say::FILLER)
        ),
    }
}

impl<const N: usize> Flat<N> {
    fn buffer(&self) -> &[u8] {
        &self.memory[..self.lent.min(N)]
    }

    fn buffer_mut(&mut self) -> &mut [u8] {
        let lent = self.lent.min(N);
        let memory = &mut self.memory[..];
        &mut memory[..lent]
    }

    // `flat-lend BYTES HH`
    fn lend(&mut self, line: &[u8], out: &impl Print) -> Result<(), Unanswered> {
        let lent = words::length_at(line, 1, N, Fault::NoBuffer(N))?;
        let filler = words::byte_at(line, 2)?;
        self.lent = lent;
        self.used = 0;
        self.buffer_mut().fill(filler);
        Ok(println!(out; "lent")?)
    }

    // `flat-used N`
    fn set_used(&mut self, line: &[u8], out: &impl Print) -> Result<(), Unanswered> {
        self.used = words::number_at(line, 1)? as usize;
        Ok(println!(out; "set")?)
    }

    // `flat-append NAME BYTES`
    fn append(
        &mut self,
        line: &[u8],
        scratch: &mut Scratch,
        out: &impl Print,
    ) -> Result<(), Unanswered> {
        let name = bytes_at(line, 1, &mut scratch.name)?;
        let bytes = bytes_at(line, 2, &mut scratch.output)?;
        let used = self.used;
        match flat_store::write::append(self.buffer_mut(), used, name, bytes) {
            Ok(used) => {
                self.used = used;
                println!(out; "accepted")?;
            }
            Err(why) => say::refused(out, why.number())?,
        }
        Ok(())
    }

    // `flat-lookup NAME`
    fn lookup(
        &self,
        line: &[u8],
        scratch: &mut Scratch,
        out: &impl Print,
    ) -> Result<(), Unanswered> {
        let name = bytes_at(line, 1, &mut scratch.name)?;
        let answer = flat_store::look::lookup(self.buffer(), self.used, name);
        Ok(say_lookup(answer, out)?)
    }

    // `flat-length NAME`
    fn length(
        &self,
        line: &[u8],
        scratch: &mut Scratch,
        out: &impl Print,
    ) -> Result<(), Unanswered> {
        let name = bytes_at(line, 1, &mut scratch.name)?;
        let answer = flat_store::look::length(self.buffer(), self.used, name);
        Ok(say_length(answer, out)?)
    }

    // `flat-read NAME ROOM`
    fn read(&self, line: &[u8], scratch: &mut Scratch, out: &impl Print) -> Result<(), Unanswered> {
        let name = bytes_at(line, 1, &mut scratch.name)?;
        let output = room_at(line, 2, &mut scratch.output, Fault::OutputTooLong)?;
        output.fill(say::FILLER);
        let answer = flat_store::look::read(self.buffer(), self.used, name, output);
        Ok(say_reading(answer, output, out)?)
    }

    // `flat-poke PLACE BYTES`
    fn poke(
        &mut self,
        line: &[u8],
        scratch: &mut Scratch,
        out: &impl Print,
    ) -> Result<(), Unanswered> {
        let place = words::number_at(line, 1)?;
        let bytes = bytes_at(line, 2, &mut scratch.name)?;
        poke_bytes(self.buffer_mut(), place, bytes)?;
        Ok(println!(out; "poked")?)
    }

    // `flat-dump PLACE COUNT`
    fn dump(&self, line: &[u8], out: &impl Print) -> Result<(), Unanswered> {
        let [place, count] = words::numbers_at::<2>(line)?;
        Ok(Hex(part(self.buffer(), place, count)?).line(out)?)
    }

    // `flat-sum`
    fn sum(&self, out: &impl Print) -> io::Result<()> {
        let hash = murmurhash2::murmurhash2(self.buffer(), 0);
        println!(out; "sum {hash} {}", self.used)
    }

    pub fn play(
        &mut self,
        command: Command,
        line: &[u8],
        scratch: &mut Scratch,
        out: &impl Print,
    ) -> Result<(), Unanswered> {
        match command {
            Command::Lend => self.lend(line, out),
            Command::Used => self.set_used(line, out),
            Command::Append => self.append(line, scratch, out),
            Command::Lookup => self.lookup(line, scratch, out),
            Command::Length => self.length(line, scratch, out),
            Command::Read => self.read(line, scratch, out),
            Command::Poke => self.poke(line, scratch, out),
            Command::Dump => self.dump(line, out),
            Command::Sum => Ok(self.sum(out)?),
        }
    }
}
