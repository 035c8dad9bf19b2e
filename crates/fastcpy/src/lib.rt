// Bytes copied between slices of equal length (fastcpy.rs of the Rust crate): short ones by words that may overlap,
// instead of going on with what is left after the first ones.
//
// It promises, for any two slices, exactly the answer and what the destination holds afterwards: unequal lengths, a
// panic there, are refusal 9, and nothing is written. `copy_in`, which writes to a place of a memory, asks that there
// is room: the layers above have shown that before they call. The AVX branch is not carried over. It uses limits (what
// an answer says), numbers and spans.
#![tactic(auto)]

ghost use Rattle.std.specs.Prelude.{true, ◌≡◌, ◌+◌, ◌≤◌, ◌<◌, length};
ghost use Rattle.limits.specs.Refusals.{copying, permitted};
ghost use Rattle.spans.specs.Span.{overwrite};
ghost use Rattle.fastcpy.specs.Copy.{out, copy_of, said_copied};

use limits::Refusal;

// Copies src over dst.
#[tactic(auto, unfolding(crate::specs::Copy::copy_of))]
pub fn fast_short_slice_copy(src: &[u8], dst: &mut [u8]) -> Result<(), Refusal>
    ensures settled { out result dst.new ≡ copy_of src.now dst.old }
    ensures numbered { permitted copying (said_copied result) ≡ true }
{
    if src.len() != dst.len() {
        return Err(Refusal::WrongLength);
    }
    copy_over(src, dst);
    Ok(())
}

// The same where the lengths are known to be equal.
fn copy_over(src: &[u8], dst: &mut [u8])
    requires { length src.now ≡ length dst.old }
    ensures { dst.new ≡ src.now }
{
    let len = src.len();
    let is_long = 16 < len;
    if is_long {
        return copy_long(src, dst);
    }
    if len < 4 {
        return copy_upto_3(src, dst);
    }
    copy_words(src, dst)
}

// More than that: a block move. Out of line, so that a short copy, which is the usual one, saves no register for it.
#[inline(never)]
fn copy_long(src: &[u8], dst: &mut [u8])
    requires { length src.now ≡ length dst.old }
    ensures { dst.new ≡ src.now }
{
    dst.copy_from_slice(src);
}

// No byte to three: the first, the middle and the last one.
fn copy_upto_3(src: &[u8], dst: &mut [u8])
    requires { (length src.now < 4) × (length src.now ≡ length dst.old) }
    ensures { dst.new ≡ src.now }
{
    let len = src.len();
    if len == 0 {
        return;
    }
    let m = len / 2;
    let e = len - 1;
    let a = src[0];
    let b = src[m];
    let c = src[e];
    dst[0] = a;
    dst[m] = b;
    dst[e] = c;
}

// Four bytes to sixteen: four words, all read before one is written. The first and the last two cover up to eight,
// all of them up to sixteen.
fn copy_words(src: &[u8], dst: &mut [u8])
    requires { (4 ≤ length src.now) × ((length src.now ≤ 16) × (length src.now ≡ length dst.old)) }
    ensures { dst.new ≡ src.now }
{
    let len = src.len();
    let second = (len - 1) / 8 * 4;
    let last = len - 4;
    let third = last - second;
    let a = spans::get_u32(src, 0);
    let b = spans::get_u32(src, second);
    let c = spans::get_u32(src, third);
    let d = spans::get_u32(src, last);
    spans::put_u32(dst, 0, a);
    spans::put_u32(dst, second, b);
    spans::put_u32(dst, third, c);
    spans::put_u32(dst, last, d);
}

// Copies all of src to a place of a memory.
#[tactic(auto, using(spans::proofs::Laws::part_back))]
pub fn copy_in(mem: &mut [u8], at: usize, src: &[u8])
    requires { at + length src.now ≤ length mem.old }
    ensures { mem.new ≡ overwrite at src.now mem.old }
{
    let e = at + src.len();
    copy_over(src, &mut mem[at..e]);
}
