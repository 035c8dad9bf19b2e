// An input, cut into lines.
ghost use Rattle.std.specs.Prelude.{◌≤◌, length};

use std::io::BufRead;

// A line without its end: no more of it than was lent for one, and whether there was more.
#[derive(Clone, Copy)]
pub struct Line<'l> {
    pub bytes: &'l [u8],
    pub is_long: bool,
}

// What is known between two lines of an input. A program goes over them by `for _ in 0..u64::MAX`, since a loop has to
// end and nothing says that an input does.
#[derive(Clone, Copy)]
pub struct Lines {
    // where the input is at its end, no more of it is asked for: a person who types says so once
    is_over: bool,
}

// The next byte. A read that fails counts as the input's end.
fn byte_of<R: BufRead>(input: &mut R) -> Option<u8> {
    let b = *input.fill_buf().ok()?.first()?;
    input.consume(1);
    Some(b)
}

impl Lines {
    // Before the first line.
    pub fn new() -> Lines {
        Lines { is_over: false }
    }

    // The next line of the input, in the lent area; a last one that lacks its end too, unless it is empty.
    pub fn next<'l, R: BufRead>(&mut self, input: &mut R, area: &'l mut [u8]) -> Option<Line<'l>> {
        if self.is_over {
            return None;
        }
        let mut held = 0;
        let mut is_long = false;
        for _ in 0..u64::MAX {
            let Some(b) = byte_of(input) else {
                self.is_over = true;
                break;
            };
            if b == b'\n' {
                break;
            }
            if held < area.len() {
                area[held] = b;
                held += 1;
            } else {
                is_long = true;
            }
        }
        if self.is_over && held == 0 {
            return None;
        }
        Some(Line {
            bytes: &area[..held],
            is_long,
        })
    }
}
