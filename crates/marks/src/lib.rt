// Places marked as bits of a lent byte area, eight a byte, the low bit first.
//
// It promises that marking a span tells whether one of its places was marked already, and else marks them and nothing
// more (specs/Bits.antt). `mark_span` asks that its places lie in the area: it is an inner function of the brownout
// check, which has tested the area's length. It uses nothing but laws of numbers.
#![tactic(auto)]

ghost use Rattle.std.specs.Prelude.{◌≡◌, ◌+◌, ◌*◌, ◌^◌, ◌≤◌, ◌<◌, length, replicate};
ghost use Rattle.marks.specs.Bits.{out, mark_one, mark_span, Strode};

// Every byte zero.
pub fn clear(marks: &mut [u8])
    ensures settled { marks.new ≡ replicate (length marks.old) 0 }
{
    marks.fill(0);
}

// Marks place k; whether it was marked already.
pub fn mark(marks: &mut [u8], k: usize) -> bool
    requires { k < 8 * length marks.old }
    ensures { out result marks.new ≡ mark_one marks.old k }
{
    let at = k / 8;
    let r = k % 8;
    let old = marks[at];
    if (old >> r) % 2 == 1 {
        return true;
    }
    marks[at] = old + (1 << r);
    false
}

// Marks a whole byte's places where they are free and wanted, else one place; how many, if none was marked already.
fn mark_some(marks: &mut [u8], at: usize, left: usize) -> Option<usize>
    requires { (0 < left) × (at + left ≤ 8 * length marks.old) }
    ensures { Strode marks.old at left result marks.new }
{
    let w = at / 8;
    if (8 <= left) & (at % 8 == 0) & (marks[w] == 0) {
        marks[w] = 255;
        return Some(8);
    }
    if mark(marks, at) {
        return None;
    }
    Some(1)
}

// Marks n places from one on, up to the first that was marked already; whether there was one.
pub fn mark_span(marks: &mut [u8], from: usize, n: usize) -> bool
    requires { (from + n ≤ 8 * length marks.old) × (from + n < 2 ^ 64) }
    ensures { out result marks.new ≡ mark_span marks.old from n }
{
    let mut at = from;
    let mut left = n;
    // by strides of one place or eight, so no `for`
    while 0 < left {
        let Some(done) = mark_some(marks, at, left) else {
            return true;
        };
        at += done;
        left -= done;
    }
    false
}
