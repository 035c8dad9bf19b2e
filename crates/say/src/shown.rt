// How bytes, words and outputs are written.
use crate::many::write_pairs;
use std::{fmt, io};

// What an output's bytes are before a call.
pub const FILLER: u8 = 0xee;

// The most bytes that a line shows by its `Display`. Of more the formatter takes longer than the two calls more that it
// is to write them by themselves.
const FEW: usize = 32;

// Bytes as hex pairs, or `-` for none.
#[derive(Clone, Copy)]
pub struct Hex<'a>(pub &'a [u8]);

impl Hex<'_> {
    // Prints them as a line.
    pub fn line(self, out: &impl Print) -> io::Result<()> {
        if self.0.len() <= FEW {
            return println!(out; "{}", self);
        }
        write_pairs(self.0, out)?;
        println!(out)
    }
}

impl fmt::Display for Hex<'_> {
    fn fmt<W: fmt::Write>(&self, f: &mut fmt::Formatter<W>) -> fmt::Result {
        if self.0.is_empty() {
            return write!(f, "-");
        }
        for b in self.0 {
            write!(f, "{b:02x}")?;
        }
        Ok(())
    }
}

// Numbers, a space before each.
#[derive(Clone, Copy)]
pub struct Spaced<'a, T>(pub &'a [T]);

impl<T: fmt::Display + Copy> fmt::Display for Spaced<'_, T> {
    fn fmt<W: fmt::Write>(&self, f: &mut fmt::Formatter<W>) -> fmt::Result {
        for number in self.0 {
            write!(f, " {number}")?;
        }
        Ok(())
    }
}

// Numbers one space apart, or `-` for none.
#[derive(Clone, Copy)]
pub struct Decimals<'a, T>(pub &'a [T]);

impl<T: fmt::Display + Copy> fmt::Display for Decimals<'_, T> {
    fn fmt<W: fmt::Write>(&self, f: &mut fmt::Formatter<W>) -> fmt::Result {
        match self.0 {
            [] => write!(f, "-"),
            [first, others @ ..] => {
                let others = Spaced(others);
                write!(f, "{first}{others}")
            }
        }
    }
}

// Whether an area holds nothing but its filler.
pub fn is_all<T: PartialEq + Copy>(area: &[T], filler: T) -> bool {
    area.iter().all(|x| *x == filler)
}

// Whether an area is as it was before a call, which found it full of its filler.
pub fn kept<T: PartialEq + Copy>(area: &[T], filler: T) -> &'static str {
    if is_all(area, filler) {
        " kept"
    } else {
        " changed"
    }
}

// What was written to an output's front, and whether what is behind it is as it was.
#[derive(Clone, Copy)]
pub struct Written<'a> {
    front: &'a [u8],
    behind: &'a [u8],
}

impl<'a> Written<'a> {
    // An output whose first n bytes were written.
    pub fn of(n: usize, output: &'a [u8]) -> Written<'a> {
        let (front, behind) = output.split_at(n.min(output.len()));
        Written { front, behind }
    }

    // Prints it as a line, behind what was answered.
    pub fn line(self, answer: impl fmt::Display + Drop, out: &impl Print) -> io::Result<()> {
        if self.front.len() <= FEW {
            return println!(out; "{answer}{self}");
        }
        print!(out; "{answer} ")?;
        write_pairs(self.front, out)?;
        out.println(kept(self.behind, FILLER))
    }
}

impl fmt::Display for Written<'_> {
    fn fmt<W: fmt::Write>(&self, f: &mut fmt::Formatter<W>) -> fmt::Result {
        let front = Hex(self.front);
        let kept = kept(self.behind, FILLER);
        write!(f, " {front}{kept}")
    }
}
