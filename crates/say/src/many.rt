// Many bytes as hex pairs. The kit's formatter takes each byte by itself, which is slow, so they are laid out here, as
// many at a time as an area holds, and that is written.
ghost use Rattle.std.specs.Prelude.{◌*◌, ◌≤◌, length};

use std::io;

// The digits that are laid out at a time, two for each byte.
const DIGITS: usize = 4096;

// The hex digit of a number's last four bits.
fn digit(n: u8) -> u8 {
    let low = n % 16;
    if low < 10 {
        b'0' + low
    } else {
        b'a' - 10 + low
    }
}

// Puts two hex digits for each byte at the front of an area.
fn lay_out(bytes: &[u8], into: &mut [u8])
    requires { 2 * length bytes.now ≤ length into.old }
{
    for (i, b) in bytes.iter().enumerate() {
        into[2 * i] = digit(*b / 16);
        into[2 * i + 1] = digit(*b);
    }
}

// Writes bytes as hex pairs.
pub fn write_pairs(bytes: &[u8], out: &impl Print) -> io::Result<()> {
    let mut area = [0; DIGITS];
    for part in bytes.chunks(DIGITS / 2) {
        let n = part.len().min(DIGITS / 2);
        lay_out(&part[..n], &mut area);
        out.write_all(&area[..2 * n])?;
    }
    Ok(())
}
