// Signed 32-bit readings: the difference of one from the one before it, and the unsigned number that it is stored as
// (document 02, Four).
//
// It promises what specs/Signed.antt says, for all arguments; specs/Promises.antt, that each difference comes back from
// its number and each reading from its difference. It uses numbers.
#![tactic(auto)]

ghost use Rattle.std.specs.Prelude.{◌≡◌, true, ◌^◌, ◌<◌, pos, negsuc};
ghost use Rattle.std.specs.Int.Signed.{lt_z};
ghost use Rattle.signed.specs.Signed.{modulo, as_signed, difference as difference_of, following as following_of};
ghost use Rattle.signed.specs.Signed.{stored, unstored};

// How far a negative number lies below -1. z + 1 comes first: -z has no signed form where z is the lowest.
fn below(z: i32) -> u32
    requires { lt_z z (pos 0) ≡ true }
    ensures { z ≡ negsuc result }
{
    (-(z + 1)) as u32
}

// The number that lies that far below -1.
fn negative(n: u32) -> i32
    requires { n < 2 ^ 31 }
    ensures { result ≡ negsuc n }
{
    -(n as i32) - 1
}

// A signed number modulo 2^32.
pub fn modulo_of(z: i32) -> u32
    ensures { result ≡ modulo z }
{
    if z < 0 {
        return 4294967295 - below(z);
    }
    z as u32
}

// A number below 2^32 taken as signed.
pub fn as_signed(n: u32) -> i32
    ensures { result ≡ as_signed n }
{
    if n < 2147483648 {
        return n as i32;
    }
    negative(4294967295 - n)
}

// A reading's difference from the one before it.
pub fn difference(last: i32, new: i32) -> i32
    ensures { result ≡ difference_of last new }
{
    let a = modulo_of(new);
    let b = modulo_of(last);
    let c = numbers::wrapping_add(4294967295 - b, 1);
    as_signed(numbers::wrapping_add(a, c))
}

// The reading behind the last one, by its difference from it.
pub fn following(last: i32, d: i32) -> i32
    ensures { result ≡ following_of last d }
{
    let a = modulo_of(last);
    let b = modulo_of(d);
    as_signed(numbers::wrapping_add(a, b))
}

// The number that a difference is stored as.
pub fn encode(d: i32) -> u32
    ensures { result ≡ stored d }
{
    if d < 0 {
        return 2 * below(d) + 1;
    }
    2 * (d as u32)
}

// The difference that a number stands for.
pub fn decode(u: u32) -> i32
    ensures { result ≡ unstored u }
{
    if u % 2 == 0 {
        return (u / 2) as i32;
    }
    negative(u / 2)
}
