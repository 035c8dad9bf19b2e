// The words of a line, one space apart: numbers and bytes.
ghost use Rattle.std.specs.Prelude.{◌≤◌, length, IfOk};

use crate::expand::{expand, pair};
use crate::fault::Fault;

// The most bytes that a word stands for.
const MOST_BYTES: usize = 262144;

// Word k of a line, from 0, if the line has one.
fn nth(line: &[u8], k: usize) -> Option<&[u8]> {
    line.split(|b| *b == b' ').nth(k)
}

// Word k of a line, from 0; the empty part where there is none.
pub fn word(line: &[u8], k: usize) -> &[u8] {
    nth(line, k).unwrap_or(b"")
}

// A number with one more digit.
fn with_digit(value: u64, b: u8) -> Result<u64, Fault> {
    let digit = match b {
        b'0'..=b'9' => u64::from(b - b'0'),
        _ => return Err(Fault::NotANumber),
    };
    let tens = value.checked_mul(10).ok_or(Fault::TooLarge)?;
    tens.checked_add(digit).ok_or(Fault::TooLarge)
}

// A decimal number of 64 bits.
pub fn decimal(digits: &[u8]) -> Result<u64, Fault> {
    if digits.is_empty() {
        return Err(Fault::NotANumber);
    }
    let mut value = 0;
    for b in digits {
        value = with_digit(value, *b)?;
    }
    Ok(value)
}

// Word k of a line as a number.
pub fn number_at(line: &[u8], k: usize) -> Result<u64, Fault> {
    decimal(word(line, k))
}

// Word k of a line as a number; `otherwise` where the line ends before it.
pub fn number_or(line: &[u8], k: usize, otherwise: u64) -> Result<u64, Fault> {
    match nth(line, k) {
        Some(digits) => decimal(digits),
        None => Ok(otherwise),
    }
}

// The N numbers of a line from word k on.
pub fn numbers_from<const N: usize>(line: &[u8], k: usize) -> Result<[u64; N], Fault> {
    let mut numbers = [0; N];
    let mut words = line.split(|b| *b == b' ').skip(k);
    for number in numbers.iter_mut() {
        *number = decimal(words.next().unwrap_or(b""))?;
    }
    Ok(numbers)
}

// The N numbers behind the command.
pub fn numbers_at<const N: usize>(line: &[u8]) -> Result<[u64; N], Fault> {
    numbers_from(line, 1)
}

// Word k of a line as a number of 32 bits.
pub fn u32_at(line: &[u8], k: usize) -> Result<u32, Fault> {
    u32::try_from(number_at(line, k)?).map_err(|_| Fault::TooLarge)
}

// Word k of a line as a length of at most `most`; `beyond` is the fault of a longer one.
pub fn length_at(line: &[u8], k: usize, most: usize, beyond: Fault) -> Result<usize, Fault>
    ensures { IfOk result (λ n. n ≤ most) }
{
    let n = number_at(line, k)?;
    if n <= most as u64 {
        Ok(n as usize)
    } else {
        Err(beyond)
    }
}

// Word k of a line as the byte of two hex digits.
pub fn byte_at(line: &[u8], k: usize) -> Result<u8, Fault> {
    pair(word(line, k)).ok_or(Fault::NotBytes)
}

// The bytes of word k of a line, at the front of a lent area: at most 262,144.
pub fn bytes_at(line: &[u8], k: usize, into: &mut [u8]) -> Result<usize, Fault>
    ensures { IfOk result (λ n. n ≤ length into.old) }
{
    let most = into.len().min(MOST_BYTES);
    expand(&mut into[..most], word(line, k))
}
