// feed: numbers out of a lane that comes in pieces.
use bench_areas::{bytes_at, room_at};
use limits::Refusal;
use number_pieces::{Fed, Pieces, Stop};
use say::{Hex, Spaced, Unanswered};
use std::{fmt, io};
use text::fault::Fault;
use text::words;

// What the places of an output hold before a call.
const UNWRITTEN: u32 = 4008636142;

// The numbers that were given out, how many and which.
#[derive(Clone, Copy)]
struct Numbers<'a>(&'a [u32]);

impl fmt::Display for Numbers<'_> {
    fn fmt<W: fmt::Write>(&self, f: &mut fmt::Formatter<W>) -> fmt::Result {
        let count = self.0.len();
        let numbers = Spaced(self.0);
        write!(f, "numbers {count}{numbers}")
    }
}

// Whether it goes on, and the numbers that were given out. All refusals but 2 tell a value beside their number, 11 and
// 12 also the numbers before it.
#[derive(Clone, Copy)]
struct Said<'a>(Option<Stop>, Numbers<'a>);

impl fmt::Display for Said<'_> {
    fn fmt<W: fmt::Write>(&self, f: &mut fmt::Formatter<W>) -> fmt::Result {
        let Said(stop, numbers) = *self;
        let Some(Stop { refusal, told }) = stop else {
            return write!(f, "{numbers}");
        };
        let n = refusal.number();
        match refusal {
            Refusal::NotWhole => write!(f, "refused {n}"),
            Refusal::OutputTooShort => write!(f, "refused {n} {told}"),
            _ => write!(f, "refused {n} {told} {numbers}"),
        }
    }
}

// The answer, the state after it, and what it left of places that were unwritten.
fn say_fed(fed: Fed, places: &[u32], out: &impl Print) -> io::Result<()> {
    let (given, behind) = places.split_at(fed.numbers.min(places.len()));
    let said = Said(fed.stop, Numbers(given));
    let after = fed.state;
    let held = Hex(&after.held);
    let kept = say::kept(behind, UNWRITTEN);
    println!(out; "{said} state {} {held} {}{kept}", after.count, after.fed)
}

// COUNT, HELD and FED: the state that is handed in.
fn state_at(line: &[u8], scratch: &mut [u8]) -> Result<Pieces, Fault> {
    let count = words::u32_at(line, 1)? as usize;
    let bytes = bytes_at(line, 2, scratch)?;
    let held = <[u8; 4]>::try_from(bytes).map_err(|_| Fault::NotFourBytes)?;
    let fed = words::u32_at(line, 3)?;
    Ok(Pieces { held, count, fed })
}

// `feed COUNT HELD FED PIECE ROOM END`
pub fn feed(line: &[u8], scratch: &mut [u8], out: &impl Print) -> Result<(), Unanswered> {
    let mut places = [UNWRITTEN; 16384];
    let state = state_at(line, scratch)?;
    let piece = bytes_at(line, 4, scratch)?;
    let places = room_at(line, 5, &mut places, Fault::TooManyPlaces)?;
    let is_last = words::length_at(line, 6, 1, Fault::TooLarge)? == 1;
    let fed = number_pieces::feed(state, piece, is_last, places);
    Ok(say_fed(fed, places, out)?)
}
