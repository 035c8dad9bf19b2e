// Vints: numbers in seven bits a byte, low group first, the top bit set on the last byte only (document 01, "Hash and
// vint").
//
// It promises that a number is written in the fewest bytes, 1 to 5, and that the reader, for all bytes, answers the
// number and the bytes taken, or refusal 11 without an end, or 12 for a form that the writer doesn't write (document
// 02, Five). specs/Vint.antt says what that means, and specs/Promises.antt what is proved of both: each number has
// exactly one accepted form, the written one. It uses limits, and numbers in contracts and proofs alone.
#![tactic(auto)]

ghost use Rattle.std.specs.Prelude.{◌≡◌, true, ◌+◌, ◌-◌, ◌*◌, ◌%◌, ◌^◌, ◌≤◌, ◌<◌};
ghost use Rattle.limits.specs.Refusals.{unvinting, permitted};
ghost use Rattle.vint.specs.Vint.{vint_of, ended, is_another_form, answer_of, read_vint, said_unvint};

mod written;

use limits::Refusal;
pub use written::Vint;

// A number that was read, and how many bytes were taken for it.
#[derive(Clone, Copy, Debug, PartialEq, Eq)]
pub struct Read {
    pub number: u32,
    pub taken: usize,
}

// The lowest group, for a byte that isn't the last.
fn low(n: u32) -> u8
    ensures { result ≡ n % 128 }
{
    (n % 128) as u8
}

// The highest group, with the top bit.
fn last(n: u32) -> u8
    requires { n < 128 }
    ensures { result ≡ n + 128 }
{
    (n + 128) as u8
}

// The vint of a number.
pub fn serialize_vint_u32(n: u32) -> Vint
    ensures { result ≡ vint_of n }
{
    let mut bytes = [0u8; limits::VINT_LIMIT];
    let mut rest = n;
    let mut at: usize = 0;
    // a `for` over the places would have an end that is never reached
    while 128 <= rest {
        bytes[at] = low(rest);
        rest /= 128;
        at += 1;
    }
    bytes[at] = last(rest);
    let count = at + 1;
    Vint { bytes, count }
}

// The sum with one more group, which stands for that many units.
fn plus(sum: u64, unit: u64, group: u8) -> u64
    requires { (unit ≤ 128 ^ 4) × (sum < unit) }
    ensures { result ≡ sum + unit * group }
{
    sum + unit * (group as u64)
}

// Whether a vint of so many bytes isn't its number's one form, by its last group.
fn is_another_form(taken: usize, group: u8) -> bool
    ensures { result ≡ is_another_form taken group }
{
    let high = (taken == limits::VINT_LIMIT) & (limits::FIFTH_LIMIT < group);
    let empty = (2 <= taken) & (group == 0);
    high | empty
}

// What a vint answers: by its last group, which stands for that many units, the sum before it and the bytes taken.
fn answered(sum: u64, unit: u64, group: u8, taken: usize) -> Result<Read, Refusal>
    requires { (1 ≤ taken) × ((taken ≤ 5) × ((unit ≡ 128 ^ (taken - 1)) × ((sum < unit) × (group < 128)))) }
    ensures { result ≡ answer_of (ended (sum + unit * group) taken) }
{
    if is_another_form(taken, group) {
        return Err(Refusal::AnotherForm);
    }
    let number = plus(sum, unit, group) as u32;
    Ok(Read { number, taken })
}

// The number that bytes begin with, as a vint.
pub fn read_u32_vint(bytes: &[u8]) -> Result<Read, Refusal>
    ensures settled { result ≡ read_vint bytes.now }
    ensures numbered { permitted unvinting (said_unvint result) ≡ true }
{
    let mut sum: u64 = 0;
    let mut unit: u64 = 1;
    let most = bytes.len().min(limits::VINT_LIMIT);
    for (at, &b) in bytes[..most].iter().enumerate() {
        if 128 <= b {
            return answered(sum, unit, b - 128, at + 1);
        }
        sum = plus(sum, unit, b);
        unit *= 128;
    }
    Err(Refusal::NoEnd)
}
