// What the answers to the lines of a script are made of, and how a program prints them. An answer is a line that the
// kit's std writes whole: it lays a line out on the stack, and has written it when the call returns. Many bytes as hex
// pairs are laid out here, for they would take std long. A program prints through `Passing`: a write that fails is told
// to nobody, and the next is tried anew.
//
// It promises that each call ends and stays inside what is lent, and asks nothing of its callers. It uses text.
#![tactic(auto)]

mod many;
mod printing;
mod shown;
mod unanswered;

pub use printing::Passing;
pub use shown::{Decimals, FILLER, Hex, Spaced, Written, is_all, kept};
use std::io;
pub use unanswered::{Unanswered, answered};

// A refusal by its number.
pub fn refused(out: &impl Print, number: u32) -> io::Result<()> {
    println!(out; "refused {number}")
}
