// A bytes word, expanded: hex pairs, `-` for none and runs `N*HH`, joined by `+`; or `'` and letters that stand for
// themselves.
//
// Each function here puts bytes at the front of a lent area and tells how many.
ghost use Rattle.std.specs.Prelude.{◌≤◌, ◌<◌, length, IfOk, IfSome};

use crate::fault::Fault;
use crate::words::decimal;

// The value of a hex digit.
fn nibble(b: u8) -> Option<u8>
    ensures { IfSome result (λ n. n < 16) }
{
    match b {
        b'0'..=b'9' => Some(b - b'0'),
        b'a'..=b'f' => Some(b - b'a' + 10),
        _ => None,
    }
}

// The byte of two hex digits.
pub fn pair(hex: &[u8]) -> Option<u8> {
    let [high, low] = hex else {
        return None;
    };
    Some(nibble(*high)? * 16 + nibble(*low)?)
}

// A byte that may stand in a quoted name.
fn quotable(b: u8) -> Option<u8> {
    let is_quotable = b.is_ascii_alphanumeric() || matches!(b, b'-' | b'_' | b'.');
    is_quotable.then_some(b)
}

// Puts a byte at place n.
fn put(into: &mut [u8], n: usize, b: Option<u8>) -> Result<usize, Fault>
    ensures { IfOk result (λ n. n ≤ length into.old) }
{
    let b = b.ok_or(Fault::NotBytes)?;
    let place = into.get_mut(n).ok_or(Fault::BytesTooLong)?;
    *place = b;
    Ok(n + 1)
}

// Hex pairs.
fn pairs(into: &mut [u8], hex: &[u8]) -> Result<usize, Fault>
    ensures { IfOk result (λ n. n ≤ length into.old) }
{
    if hex.is_empty() || hex.len() % 2 == 1 {
        return Err(Fault::NotBytes);
    }
    let mut n = 0;
    for digits in hex.chunks(2) {
        n = put(into, n, pair(digits))?;
    }
    Ok(n)
}

// A byte so many times.
fn run(into: &mut [u8], times: &[u8], hex: &[u8]) -> Result<usize, Fault>
    ensures { IfOk result (λ n. n ≤ length into.old) }
{
    let count = decimal(times)?;
    let b = pair(hex).ok_or(Fault::NotBytes)?;
    if (into.len() as u64) < count {
        return Err(Fault::BytesTooLong);
    }
    let n = count as usize;
    into[..n].fill(b);
    Ok(n)
}

// A piece of a bytes word: `-`, a run `N*HH`, or hex pairs.
fn piece(into: &mut [u8], word: &[u8]) -> Result<usize, Fault>
    ensures { IfOk result (λ n. n ≤ length into.old) }
{
    if let b"-" = word {
        return Ok(0);
    }
    match word.iter().position(|b| *b == b'*') {
        Some(star) => run(into, &word[..star], &word[star + 1..]),
        None => pairs(into, word),
    }
}

// Pieces joined by `+`.
fn pieces(into: &mut [u8], joined: &[u8]) -> Result<usize, Fault>
    ensures { IfOk result (λ n. n ≤ length into.old) }
{
    let mut n = 0;
    for word in joined.split(|b| *b == b'+') {
        n += piece(&mut into[n..], word)?;
    }
    Ok(n)
}

// Letters, digits, `-`, `_` and `.`, which stand for themselves.
fn quoted(into: &mut [u8], name: &[u8]) -> Result<usize, Fault>
    ensures { IfOk result (λ n. n ≤ length into.old) }
{
    if name.is_empty() {
        return Err(Fault::NotBytes);
    }
    let mut n = 0;
    for b in name {
        n = put(into, n, quotable(*b))?;
    }
    Ok(n)
}

// The bytes of a word.
pub fn expand(into: &mut [u8], bytes: &[u8]) -> Result<usize, Fault>
    ensures { IfOk result (λ n. n ≤ length into.old) }
{
    match bytes {
        [] => Err(Fault::NotBytes),
        [b'\'', name @ ..] => quoted(into, name),
        _ => pieces(into, bytes),
    }
}
