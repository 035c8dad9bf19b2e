// The reader of the shift report (document 02, One): any bytes to how many lanes there are and their bytes, or refusal
// 15 with the first bad line; and a lane of a checked text by its index, as parts of the text, and the bytes that such a
// part stands for.
//
// Each promises, for any bytes, what `text_read` of report_text says, the definition of reading. It goes line by line
// and keeps no lane: to find a name that was seen before it goes from lane to lane over the text again, where its notes
// don't say already that it wasn't. It uses limits, numbers, spans, fastcmp, murmurhash2, marks and report_text.
#![tactic(auto)]

pub mod check;
pub mod pick;
pub mod unhex;

ghost use Rattle.std.specs.Prelude.{◌≡◌, ◌+◌, ◌*◌, ◌≤◌, ◌==◌, length, position};
ghost use Rattle.report_text.specs.Text.{newline};
ghost use Rattle.report_read.specs.Lines.{line_end, next_line, ahead, next_lane, lanes_on, first_lane};

// ---- what the calls share: where lines and lanes begin and end

// Where the first newline is, or none. Out of line: each byte of a text comes by here, and written into its callers the
// loop counts what they need later beside it, on the stack.
#[inline(never)]
fn newline(text: &[u8]) -> Option<usize>
    ensures { result ≡ position (λ b. b == newline) text.now }
{
    text.iter().position(|b| *b == b'\n')
}

// Where the line from a place ends: at its newline, or at the text's end.
fn line_end(text: &[u8], from: usize) -> usize
    requires { from ≤ length text.now }
    ensures { (result ≡ line_end text.now from) × (result ≤ length text.now) }
{
    match newline(&text[from..]) {
        Some(n) => from + n,
        None => text.len(),
    }
}

// Where the next line begins.
fn next_line(text: &[u8], from: usize) -> usize
    requires { from ≤ length text.now }
    ensures { (result ≡ next_line text.now from) × (result ≤ length text.now) }
{
    text.len().min(line_end(text, from) + 1)
}

// Seven bytes and twice n on, or the text's end.
fn go_ahead(text: &[u8], at: usize, n: u64) -> usize
    requires { at ≤ length text.now }
    ensures { (result ≡ ahead text.now at (7 + 2 * n)) × (result ≤ length text.now) }
{
    let room = (text.len() - at) as u64;
    let ahead = n.saturating_mul(2).saturating_add(7);
    if room < ahead {
        return text.len();
    }
    at + ahead as usize
}

// Where the next lane begins. A lane's bytes= line is as long as its len= line tells, so it isn't gone through.
fn next_lane(text: &[u8], from: usize) -> usize
    requires { from ≤ length text.now }
    ensures { (result ≡ next_lane text.now from) × (result ≤ length text.now) }
{
    let a = next_line(text, from);
    let e = line_end(text, a);
    let b = next_line(text, a);
    let told = report_text::fields::number_in(&text[a..e], b"len=");
    go_ahead(text, b, told.unwrap_or(0))
}

// Where the first lane begins: behind three lines.
fn first_lane(text: &[u8]) -> usize
    ensures { (result ≡ first_lane text.now) × (result ≤ length text.now) }
{
    let a = next_line(text, 0);
    let b = next_line(text, a);
    next_line(text, b)
}

// Where the lane of an index begins.
fn lane_start(text: &[u8], index: u64) -> usize
    ensures { (result ≡ lanes_on index text.now (first_lane text.now))
        × (result ≤ length text.now) }
{
    let mut at = first_lane(text);
    for _ in 0..index {
        at = next_lane(text, at);
    }
    at
}
