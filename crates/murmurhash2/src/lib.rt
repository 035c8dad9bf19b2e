// MurmurHash2, 32 bits, the hash of a lane's name.
//
// It promises that for every seed and every key the answer is the public algorithm's, as specs/Murmur.antt writes it
// down from document 01. It uses numbers and spans.
#![tactic(auto)]

ghost use Rattle.std.specs.Prelude.{◌≡◌, ◌-◌, ◌/◌, ◌^◌, ◌≤◌, ◌<◌, length, drop};
ghost use Rattle.murmurhash2.specs.Murmur.{mixed, turned, taken, ended, murmur_hash2};

const M: u32 = 0x5BD1E995;

#[tactic(auto, unfolding(crate::specs::Murmur::mixed))]
fn mix(k: u32) -> u32
    ensures { result ≡ mixed k }
{
    let a = numbers::wrapping_mul(k, M);
    let b = a ^ (a >> 24);
    numbers::wrapping_mul(b, M)
}

#[tactic(auto, unfolding(crate::specs::Murmur::turned))]
fn turn(h: u32, k: u32) -> u32
    ensures { result ≡ turned h k }
{
    numbers::wrapping_mul(h, M) ^ mix(k)
}

#[tactic(auto, unfolding(crate::specs::Murmur::ended))]
fn end(h: u32) -> u32
    ensures { result ≡ ended h }
{
    let a = numbers::wrapping_mul(h ^ (h >> 13), M);
    a ^ (a >> 15)
}

// A key of fewer than four bytes: as a little-endian number, the missing bytes 0.
fn last(s: &[u8], h: u32) -> u32
    requires { length s.now < 4 }
    ensures { result ≡ taken h s.now }
{
    let four = match s {
        [] => return h,
        [a] => [*a, 0, 0, 0],
        [a, b] => [*a, *b, 0, 0],
        [a, b, c, ..] => [*a, *b, *c, 0],
    };
    numbers::wrapping_mul(h ^ u32::from_le_bytes(four), M)
}

// The bytes behind the last whole four of a longer key: the last four as one number, with those that were taken
// before shifted out.
fn tail(key: &[u8], left: usize, h: u32) -> u32
    requires { (4 ≤ length key.now) × (left < 4) }
    ensures { result ≡ taken h (drop (length key.now - left) key.now) }
{
    let four = spans::get_u32(key, key.len() - 4);
    let shift = 32 - 8 * (left as u32);
    let k = shifted(four, shift);
    let mixed = numbers::wrapping_mul(h ^ k, M);
    if left == 0 {
        return h;
    }
    mixed
}

// A number shifted right by up to all of its bits.
fn shifted(x: u32, shift: u32) -> u32
    requires { shift ≤ 32 }
    ensures { result ≡ x / 2 ^ shift }
{
    ((x as u64) >> shift) as u32
}

// The hash of a key.
#[tactic(auto, unfolding(crate::specs::Murmur::murmur_hash2))]
pub fn murmurhash2(key: &[u8], seed: u32) -> u32
    ensures { result ≡ murmur_hash2 seed key.now }
{
    let n = key.len();
    let start = seed ^ ((n % 4294967296) as u32);
    if n < 4 {
        return end(last(key, start));
    }
    end(fours(key, start))
}

// All the bytes of a key of four or more.
fn fours(key: &[u8], start: u32) -> u32
    requires { 4 ≤ length key.now }
    ensures { result ≡ taken start key.now }
{
    let (fours, rest) = key.as_chunks::<4>();
    let mut h = start;
    for four in fours {
        h = turn(h, u32::from_le_bytes(*four));
    }
    tail(key, rest.len(), h)
}
