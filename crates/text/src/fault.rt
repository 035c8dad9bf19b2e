// Why a line can't be played, with the text that it is answered with.
use std::error::Error;
use std::fmt;

#[derive(Clone, Copy, Debug, PartialEq, Eq)]
pub enum Fault {
    NotANumber,
    TooLarge,
    NotBytes,
    BytesTooLong,
    OutputTooLong,
    PastTheEnd,
    NoSuchArea,
    NoSuchField,
    // more than the most of each area that may be lent
    NoMemory {
        words: usize,
        key_bytes: usize,
        list_bytes: usize,
    },
    NoBuffer(usize),
    NoSuchStore,
    LineTooLong,
    UnknownCommand,
    TooManyPlaces,
    NotFourBytes,
    // more or fewer words than the command takes, which is written so
    Usage(&'static str),
}

impl fmt::Display for Fault {
    fn fmt<W: fmt::Write>(&self, f: &mut fmt::Formatter<W>) -> fmt::Result {
        match self {
            Fault::NotANumber => f.write_str("not a number"),
            Fault::TooLarge => f.write_str("number too large"),
            Fault::NotBytes => f.write_str(
                "not bytes: hex pairs, - or N*HH joined by +, or ' and a name",
            ),
            Fault::BytesTooLong => f.write_str("bytes too long: at most 262144"),
            Fault::OutputTooLong => f.write_str("output too long: at most 1048576"),
            Fault::PastTheEnd => f.write_str("past the end"),
            Fault::NoSuchArea => f.write_str("no such area: table, keys or lists"),
            Fault::NoSuchField => f.write_str("no such field"),
            Fault::NoMemory {
                words,
                key_bytes,
                list_bytes,
            } => write!(
                f,
                "no such memory: at most {words} words, {key_bytes} and {list_bytes} bytes"
            ),
            Fault::NoBuffer(bytes) => write!(f, "no such memory: at most {bytes} bytes"),
            Fault::NoSuchStore => f.write_str("no such store: 1 or 2"),
            Fault::LineTooLong => f.write_str("line too long"),
            Fault::UnknownCommand => f.write_str("unknown command"),
            Fault::TooManyPlaces => f.write_str("too many places: at most 16384"),
            Fault::NotFourBytes => f.write_str("not four bytes"),
            Fault::Usage(written) => write!(f, "usage: {written}"),
        }
    }
}

impl Error for Fault {}
