// What the report's writer writes, piece by piece: hex and decimals into a lent output (document 02, One).
//
// Each promises that the output is overwritten from a place with just those bytes, in the words of report_text's
// definitions, and nothing else. It uses spans, fastcpy and report_text. Its functions have `requires`: they are inner
// functions of the writer, which has measured the text and knows that it fits.
#![tactic(auto)]

ghost use Rattle.std.specs.Prelude.{◌≡◌, ◌+◌, ◌*◌, ◌^◌, ◌≤◌, ◌<◌, length, drop};
ghost use Rattle.spans.specs.Span.{overwrite};
ghost use Rattle.report_text.specs.Text.{hex_digit, hex, decimal, line};

// A hex digit.
fn hex_digit(n: u8) -> u8
    requires { n < 16 }
    ensures { result ≡ hex_digit n }
{
    if n < 10 { b'0' + n } else { b'a' - 10 + n }
}

// Bytes as hex.
pub fn put_hex(output: &mut [u8], at: usize, src: &[u8])
    requires { at + 2 * length src.now ≤ length output.old }
    ensures { output.new ≡ overwrite at (hex src.now) output.old }
{
    for (i, b) in src.iter().enumerate() {
        let p = at + 2 * i;
        output[p] = hex_digit(*b / 16);
        output[p + 1] = hex_digit(*b % 16);
    }
}

// Bytes that stand in the second half of a part become hex over all of it: what is read is never behind what is
// written.
pub fn spread(part: &mut [u8], n: usize)
    requires { length part.old ≡ 2 * n }
    ensures { part.new ≡ hex (drop n part.old) }
{
    for i in 0..n {
        let b = part[n + i];
        let p = 2 * i;
        part[p] = hex_digit(b / 16);
        part[p + 1] = hex_digit(b % 16);
    }
}

// How many digits a decimal has.
pub fn digit_count(n: u64) -> usize
    requires { n < 10 ^ 18 }
    ensures { result ≡ length (decimal n) }
{
    n.max(1).ilog10() as usize + 1
}

// A decimal.
pub fn put_decimal(output: &mut [u8], at: usize, n: u64)
    requires { (n < 10 ^ 18) × (at + length (decimal n) ≤ length output.old) }
    ensures { output.new ≡ overwrite at (decimal n) output.old }
{
    let end = at + digit_count(n);
    let mut rest = n;
    for p in (at..end).rev() {
        output[p] = b'0' + (rest % 10) as u8;
        rest /= 10;
    }
}

// ---- whole lines

// A word, a decimal, a newline. Answers where the next line begins.
pub fn put_number_line(output: &mut [u8], at: usize, word: &[u8], n: u64) -> usize
    requires { (n < 10 ^ 18) × (at + length (line word.now (decimal n)) ≤ length output.old) }
    ensures { (output.new ≡ overwrite at (line word.now (decimal n)) output.old)
        × (result ≡ at + length (line word.now (decimal n))) }
{
    let from = at + word.len();
    fastcpy::copy_in(output, at, word);
    let k = digit_count(n);
    put_decimal(output, from, n);
    let end = from + k;
    output[end] = 10;
    end + 1
}

// A word, bytes as hex, a newline. Answers where the next line begins.
pub fn put_hex_line(output: &mut [u8], at: usize, word: &[u8], src: &[u8]) -> usize
    requires { at + length (line word.now (hex src.now)) ≤ length output.old }
    ensures { (output.new
        ≡ overwrite at (line word.now (hex src.now)) output.old)
        × (result ≡ at + length (line word.now (hex src.now))) }
{
    let from = at + word.len();
    fastcpy::copy_in(output, at, word);
    put_hex(output, from, src);
    let end = from + 2 * src.len();
    output[end] = 10;
    end + 1
}
