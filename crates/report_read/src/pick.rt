// A lane of a checked text by its index, as parts of the text.
ghost use Rattle.std.specs.Prelude.{◌≡◌, true};
ghost use Rattle.limits.specs.Refusals.{unreporting, permitted};
ghost use Rattle.report_read.specs.Lane.{parts_at, lane_of};
ghost use Rattle.report_read.specs.Pick.{PartsIn};
ghost use Rattle.report_read.specs.Said.{said_picked};

use crate::check::BadLine;

// Where the hex of a lane's name and of its bytes begins in a text, and how long each is.
#[derive(Clone, Copy, Debug, PartialEq, Eq)]
pub struct Lane {
    pub name: usize,
    pub name_length: usize,
    pub bytes: usize,
    pub bytes_length: usize,
}

// The parts of the lane that begins at a place.
fn parts_at(text: &[u8], at: usize) -> Lane
    requires { PartsIn text.now at }
    ensures { result ≡ parts_at text.now at }
{
    let name = at + 5;
    let name_end = crate::line_end(text, at);
    let len_line = crate::next_line(text, at);
    let bytes_line = crate::next_line(text, len_line);
    let bytes = bytes_line + 6;
    let bytes_end = crate::line_end(text, bytes_line);
    Lane {
        name,
        name_length: name_end - name,
        bytes,
        bytes_length: bytes_end - bytes,
    }
}

// The lane of an index, from 0, in the text's order, or none. The whole text is checked first.
pub fn pick_lane(text: &[u8], index: u64) -> Result<Option<Lane>, BadLine>
    ensures settled { result ≡ lane_of text.now index }
    ensures numbered { permitted unreporting (said_picked result) ≡ true }
{
    let checked = crate::check::check(text)?;
    if checked.lanes <= index {
        return Ok(None);
    }
    let at = crate::lane_start(text, index);
    Ok(Some(parts_at(text, at)))
}
