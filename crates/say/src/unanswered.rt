// Why a line has no answer of its own.
use std::io;
use text::fault::Fault;

#[derive(Debug, Drop)]
pub enum Unanswered {
    // its words can't be read
    Unread(Fault),
    // the answer can't be written
    Unwritten(io::Error),
}

impl From<Fault> for Unanswered {
    fn from(fault: Fault) -> Unanswered {
        Unanswered::Unread(fault)
    }
}

impl From<io::Error> for Unanswered {
    fn from(e: io::Error) -> Unanswered {
        Unanswered::Unwritten(e)
    }
}

// Answers a line that can't be read with its fault.
pub fn answered(out: &impl Print, played: Result<(), Unanswered>) -> io::Result<()> {
    match played {
        Ok(()) => Ok(()),
        Err(Unanswered::Unread(fault)) => println!(out; "? {fault}"),
        Err(Unanswered::Unwritten(e)) => Err(e),
    }
}
