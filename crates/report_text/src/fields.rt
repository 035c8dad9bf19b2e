// What stands behind a line's word: decimals and hex.
ghost use Rattle.std.specs.Prelude.{◌≡◌, true, ◌+◌, ◌*◌, ◌-◌, ◌≤◌, ◌<◌, ◌^◌, length, option_map};
ghost use Rattle.report_text.specs.Reader.{is_digit, is_hex, number_from, number_of, number_in, bytes_in};
ghost use Rattle.report_text.specs.Values.{hex_text};

// One more digit.
fn more(v: u64, b: u8) -> u64
    requires { (is_digit b ≡ true) × (v < 10 ^ 17) }
    ensures { result ≡ 10 * v + (b - 48) }
{
    10 * v + u64::from(b - b'0')
}

// The decimal that bytes are: 1 to 18 digits, no leading zero but 0 itself.
fn number(text: &[u8]) -> Option<u64>
    ensures { result ≡ number_of text.now }
{
    let n = text.len();
    if n == 0 || limits::DIGIT_LIMIT < n {
        return None;
    }
    if n != 1 && text[0] == b'0' {
        return None;
    }
    digits(text)
}

// The number that at most 18 digits make.
fn digits(text: &[u8]) -> Option<u64>
    requires { length text.now ≤ 18 }
    ensures { result ≡ number_from 0 text.now }
{
    let mut v = 0;
    for b in text {
        if !b.is_ascii_digit() {
            return None;
        }
        v = more(v, *b);
    }
    Some(v)
}

// Lower-case. Both tests are made: which of them a digit passes follows no pattern that a branch could learn.
fn is_hex(b: u8) -> bool
    ensures { result ≡ is_hex b }
{
    b.is_ascii_digit() | matches!(b, b'a'..=b'f')
}

// Whether bytes are lower-case hex, two digits a byte.
pub fn is_hex_text(text: &[u8]) -> bool
    ensures { result ≡ hex_text text.now }
{
    text.len() % 2 == 0 && text.iter().all(|b| is_hex(*b))
}

// The decimal behind a word.
pub fn number_in(line: &[u8], word: &[u8]) -> Option<u64>
    ensures { result ≡ number_in word.now line.now }
{
    number(line.strip_prefix(word)?)
}

// How many bytes the hex behind a word stands for.
pub fn bytes_in(line: &[u8], word: &[u8]) -> Option<u64>
    ensures { result ≡ option_map length (bytes_in word.now line.now) }
{
    let text = line.strip_prefix(word)?;
    if !is_hex_text(text) {
        return None;
    }
    Some((text.len() / 2) as u64)
}
