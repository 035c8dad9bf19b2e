// The check: a text line by line, to its lanes and bytes or the first bad line.
ghost use Rattle.std.specs.Prelude.{◌≡◌, true, false, ◌+◌, ◌≤◌, ◌<◌, length};
ghost use Rattle.limits.specs.Refusals.{unreporting, permitted};
ghost use Rattle.report_text.specs.Reader.{text_read};
ghost use Rattle.report_read.specs.declared.check.Expected.TheVariants.{Lane as LaneNext};
ghost use Rattle.report_read.specs.Lines.{first_lane};
ghost use Rattle.report_read.specs.Counted.{seen_among, store_counted, terms_counted, total_counted, name_counted};
ghost use Rattle.report_read.specs.Counted.{end_counted, lane_counted, length_counted, bytes_counted, line_counted};
ghost use Rattle.report_read.specs.Counted.{end_of, checked_of};
ghost use Rattle.report_read.specs.Noted.{Vouched, noted_of};
ghost use Rattle.marks.specs.Bits.{out};
ghost use Rattle.report_read.specs.Said.{said_checked};

use report_text::fields;

// What the next line is to be: store=, terms=, total=, term= or end=, len=, bytes=, none.
#[derive(Clone, Copy, Debug, PartialEq, Eq)]
pub enum Expected {
    Store,
    Terms,
    Total,
    Lane,
    Length,
    Bytes,
    Nothing,
}

// What the next line is to be, terms= and total= as told, the whole lanes and their bytes so far, and the length that a
// lane told.
#[derive(Clone, Copy, Debug, PartialEq, Eq)]
pub struct Progress {
    pub expected: Expected,
    pub terms: u64,
    pub total: u64,
    pub lanes: u64,
    pub bytes: u64,
    pub length: u64,
}

const START: Progress = Progress {
    expected: Expected::Store,
    terms: 0,
    total: 0,
    lanes: 0,
    bytes: 0,
    length: 0,
};

// How many lanes a text has, and their bytes.
#[derive(Clone, Copy, Debug, PartialEq, Eq)]
pub struct Lanes {
    pub lanes: u64,
    pub bytes: u64,
}

// The first bad line of a text that is no report, from 1: `limits::Refusal::NoReport`.
#[derive(Clone, Copy, Debug, PartialEq, Eq)]
pub struct BadLine {
    pub line: u64,
}

// Whether a line begins one of a text's first lanes. It goes from lane to lane, and over no bytes= line.
fn is_seen(text: &[u8], lanes: u64, line: &[u8]) -> bool
    ensures { result ≡ seen_among lanes line.now text.now (first_lane text.now) }
{
    let mut at = crate::first_lane(text);
    for _ in 0..lanes {
        let end = crate::line_end(text, at);
        if fastcmp::fast_short_slice_compare(&text[at..end], line) {
            return true;
        }
        at = crate::next_lane(text, at);
    }
    false
}

// Whether a name's line was seen before. One whose place in the notes was free wasn't, and the lanes aren't gone
// through: else a report of many lanes would take time by the square of their number.
fn was_seen(text: &[u8], p: Progress, line: &[u8], maybe: bool) -> bool
    requires { maybe ≡ false → seen_among p.lanes line.now text.now (first_lane text.now) ≡ false }
    ensures { result ≡ seen_among p.lanes line.now text.now
        (first_lane text.now) }
{
    maybe && is_seen(text, p.lanes, line)
}

// Notes a line where a name may stand; whether its place was taken already. Equal lines have one place, so a name seen
// before finds its place taken; an unequal one seldom does.
fn note(notes: &mut [u8], p: Progress, line: &[u8]) -> bool
    requires { length notes.old ≡ 65536 }
    ensures { out result notes.new ≡ noted_of notes.old p line.now }
{
    match p.expected {
        Expected::Lane => {
            let hash = murmurhash2::murmurhash2(line, 0);
            marks::mark(notes, hash as usize % 524288)
        }
        _ => true,
    }
}

fn store_line(line: &[u8]) -> Option<Progress>
    ensures { result ≡ store_counted line.now }
{
    if !fastcmp::fast_short_slice_compare(line, b"store=1") {
        return None;
    }
    Some(Progress {
        expected: Expected::Terms,
        ..START
    })
}

fn terms_line(line: &[u8]) -> Option<Progress>
    ensures { result ≡ terms_counted line.now }
{
    let terms = fields::number_in(line, b"terms=")?;
    Some(Progress {
        expected: Expected::Total,
        terms,
        ..START
    })
}

fn total_line(line: &[u8], p: Progress) -> Option<Progress>
    ensures { result ≡ total_counted p line.now }
{
    let total = fields::number_in(line, b"total=")?;
    Some(Progress {
        expected: Expected::Lane,
        terms: p.terms,
        total,
        ..START
    })
}

fn name_line(text: &[u8], line: &[u8], p: Progress, maybe: bool) -> Option<Progress>
    requires { Vouched maybe text.now p line.now }
    ensures { result ≡ name_counted text.now p line.now }
{
    let n = fields::bytes_in(line, b"term=")?;
    if (limits::NAME_LIMIT as u64) < n {
        return None;
    }
    if was_seen(text, p, line, maybe) {
        return None;
    }
    Some(Progress {
        expected: Expected::Length,
        length: 0,
        ..p
    })
}

fn end_line(p: Progress) -> Option<Progress>
    ensures { result ≡ end_counted p }
{
    if p.lanes != p.terms || p.bytes != p.total {
        return None;
    }
    Some(Progress {
        expected: Expected::Nothing,
        length: 0,
        ..p
    })
}

fn lane_line(text: &[u8], line: &[u8], p: Progress, maybe: bool) -> Option<Progress>
    requires { Vouched maybe text.now p line.now }
    ensures { result ≡ lane_counted text.now p line.now }
{
    if fastcmp::fast_short_slice_compare(line, b"end=1") {
        return end_line(p);
    }
    name_line(text, line, p, maybe)
}

fn length_line(line: &[u8], p: Progress) -> Option<Progress>
    ensures { result ≡ length_counted p line.now }
{
    let length = fields::number_in(line, b"len=")?;
    Some(Progress {
        expected: Expected::Bytes,
        length,
        ..p
    })
}

fn bytes_line(line: &[u8], p: Progress) -> Option<Progress>
    requires { (p.lanes < 18446744073709551615) × (p.bytes + length line.now ≤ 18446744073709551615) }
    ensures { result ≡ bytes_counted p line.now }
{
    let n = fields::bytes_in(line, b"bytes=")?;
    if n != p.length {
        return None;
    }
    Some(Progress {
        expected: Expected::Lane,
        lanes: p.lanes + 1,
        bytes: p.bytes + n,
        length: 0,
        ..p
    })
}

// What a line makes of the progress.
fn any_line(text: &[u8], part: &[u8], p: Progress, maybe: bool) -> Option<Progress>
    requires lanes_bound { (p.lanes < 18446744073709551615) × (p.bytes + length part.now ≤ 18446744073709551615) }
    requires vouched { p.expected ≡ LaneNext → Vouched maybe text.now p part.now }
    ensures { result ≡ line_counted text.now p part.now }
{
    match p.expected {
        Expected::Store => store_line(part),
        Expected::Terms => terms_line(part),
        Expected::Total => total_line(part, p),
        Expected::Lane => lane_line(text, part, p, maybe),
        Expected::Length => length_line(part, p),
        Expected::Bytes => bytes_line(part, p),
        Expected::Nothing => None,
    }
}

// What is to be said where no whole line is left: n bytes follow the last newline.
fn rest(p: Progress, lines: u64, n: usize) -> Result<Lanes, BadLine>
    requires { lines < 18446744073709551615 }
    ensures { result ≡ end_of p (lines + 1) n }
{
    match p.expected {
        Expected::Nothing if n == 0 => Ok(Lanes {
            lanes: p.lanes,
            bytes: p.bytes,
        }),
        _ => Err(BadLine { line: lines + 1 }),
    }
}

// The check, with a place to note names in. What that holds before doesn't matter: it only saves time.
fn check_noting(text: &[u8], notes: &mut [u8]) -> Result<Lanes, BadLine>
    requires { length notes.old ≡ 65536 }
    ensures { result ≡ checked_of (text_read text.now) }
{
    let n = text.len();
    let mut p = START;
    let mut at = 0;
    let mut lines: u64 = 0;
    // each line tells where the next one is, so no `for`
    loop {
        let end = crate::line_end(text, at);
        if n <= end {
            return rest(p, lines, n - at);
        }
        let line = &text[at..end];
        let maybe = note(notes, p, line);
        p = any_line(text, line, p, maybe).ok_or(BadLine { line: lines + 1 })?;
        at = end + 1;
        lines += 1;
    }
}

// Checks a whole text.
pub fn check(text: &[u8]) -> Result<Lanes, BadLine>
    ensures settled { result ≡ checked_of (text_read text.now) }
    ensures numbered { permitted unreporting (said_checked result) ≡ true }
{
    let mut notes = [0u8; 65536];
    check_noting(text, &mut notes)
}
