// The bytes that hex stands for, written to a lent output: what turns the parts of a lane back into bytes.
ghost use Rattle.std.specs.Prelude.{◌≡◌, true, ◌+◌, ◌*◌, ◌/◌, ◌≤◌, ◌<◌, length};
ghost use Rattle.limits.specs.Refusals.{unhexing, permitted};
ghost use Rattle.spans.specs.Span.{overwrite};
ghost use Rattle.report_text.specs.Reader.{is_hex, hex_value, bytes_of};
ghost use Rattle.report_text.specs.Values.{hex_text};
ghost use Rattle.report_read.specs.Unhex.{byte_in, or_none, out, unhex_of};
ghost use Rattle.report_read.specs.Said.{said_unhexed};

// An output that doesn't hold the bytes, and how many it needs: `limits::Refusal::OutputTooShort`.
#[derive(Clone, Copy, Debug, PartialEq, Eq)]
pub struct TooShort {
    pub needed: u64,
}

// The value of a hex digit.
fn hex_value(b: u8) -> u8
    requires { is_hex b ≡ true }
    ensures { (result ≡ hex_value b) × (result < 16) }
{
    match b {
        b'0'..=b'9' => b - b'0',
        _ => b - b'a' + 10,
    }
}

// Byte i of hex.
fn byte_at(text: &[u8], i: usize) -> u8
    requires { (hex_text text.now ≡ true) × (2 * i + 2 ≤ length text.now) }
    ensures { result ≡ byte_in text.now i }
{
    let p = 2 * i;
    16 * hex_value(text[p]) + hex_value(text[p + 1])
}

fn put_bytes(text: &[u8], output: &mut [u8])
    requires { (hex_text text.now ≡ true) × (length text.now / 2 ≤ length output.old) }
    ensures { output.new ≡ overwrite 0 (or_none (bytes_of text.now)) output.old }
{
    for i in 0..text.len() / 2 {
        output[i] = byte_at(text, i);
    }
}

// Writes the bytes that hex stands for to the output's front, and answers how many; or it's no hex.
pub fn unhex(text: &[u8], output: &mut [u8]) -> Result<Option<u64>, TooShort>
    ensures settled { out result output.new ≡ unhex_of text.now output.old }
    ensures numbered { permitted unhexing (said_unhexed result) ≡ true }
{
    if !report_text::fields::is_hex_text(text) {
        return Ok(None);
    }
    let n = text.len() / 2;
    if output.len() < n {
        return Err(TooShort { needed: n as u64 });
    }
    put_bytes(text, output);
    Ok(Some(n as u64))
}
