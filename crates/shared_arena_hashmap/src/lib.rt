// The probing map over lent words: buckets, lookup, entering, growth and listing.
//
// It promises that each step is the one document 01 describes, as specs/ writes it down, on any words and any key
// pages: a lookup looks at no more than L buckets and reads no record that isn't a good span. Its functions are inner
// ones: the store has made the whole-state check before it calls, and what they ask of their caller is part of that
// check. It uses limits, numbers, spans, fastcmp, memory_arena and records.
#![tactic(auto)]

pub mod grow;

ghost use Rattle.std.specs.Prelude.{◌≡◌, true, ◌+◌, ◌*◌, ◌≤◌, ◌<◌, ◌^◌, length};
ghost use Rattle.memory_arena.specs.Calls.{sensible};
ghost use Rattle.shared_arena_hashmap.specs.Power.{rounded_down, power_of_two};
ghost use Rattle.shared_arena_hashmap.specs.Probe.{seen_record, seen_at, start_of, next_bucket, lookup, occupied_from};

use memory_arena::Arena;

// What a bucket is to a lookup: empty, the name's own with its record's place, a broken record, or another's. Four ends
// side by side: a Result of an Option would nest them and say them no plainer.
#[derive(Clone, Copy)]
pub enum Seen {
    Nothing,
    Same(u32),
    Broken,
    Other,
}

// What a lookup met at its end: an empty bucket, the name's record, damage, or nothing in a whole lap. Four ends side by
// side, as above.
#[derive(Clone, Copy)]
pub enum Met {
    Empty,
    Standing(u32),
    Damaged,
    Lap,
}

// A lookup's end, and how many buckets it looked at, the last one included.
#[derive(Clone, Copy)]
pub struct Walk {
    pub met: Met,
    pub looked: usize,
}

// An occupied bucket, and its record's place.
#[derive(Clone, Copy)]
pub struct Occupied {
    pub bucket: usize,
    pub place: u32,
}

// The largest power of two that is at most a capacity, which is at least 1: its highest bit.
pub fn compute_previous_power_of_two(n: usize) -> usize
    ensures { result ≡ rounded_down n }
{
    if n == 0 {
        return 1;
    }
    let zeros = u64::leading_zeros(n as u64);
    1usize << (63 - zeros)
}

pub fn is_power_of_two(n: usize) -> bool
    ensures { result ≡ power_of_two n }
{
    compute_previous_power_of_two(n) == n
}

// The key bytes are compared as a part of the page: from the record's place plus two.
fn see_record(keys: &[u8], arena: Arena, at: u32, name: &[u8]) -> Seen
    requires { sensible arena (length keys.now) ≡ true }
    ensures { result ≡ seen_record keys.now arena at name.now }
{
    if !records::is_good_record(keys, arena, at) {
        return Seen::Broken;
    }
    let n = records::key_length(keys, at);
    let from = (at as usize) + 2;
    let to = from + n;
    let key = &keys[from..to];
    if fastcmp::fast_short_slice_compare(key, name) {
        return Seen::Same(at);
    }
    Seen::Other
}

fn see(table: &[u32], keys: &[u8], arena: Arena, bucket: usize, hash: u32, name: &[u8]) -> Seen
    requires { (sensible arena (length keys.now) ≡ true) × (2 * bucket + 1 < length table.now) }
    ensures { result ≡ seen_at table.now keys.now arena bucket hash name.now }
{
    let w = 2 * bucket;
    let address = table[w];
    if address == limits::NULL {
        return Seen::Nothing;
    }
    let stored = table[w + 1];
    if stored == hash {
        return see_record(keys, arena, address, name);
    }
    Seen::Other
}

fn next_bucket(l: usize, i: usize) -> usize
    requires { i < l }
    ensures { (result ≡ next_bucket l i) × (result < l) }
{
    if i + 1 == l {
        return 0;
    }
    i + 1
}

// Where the probe of a hash starts. The length is a power of two, so a mask gives the remainder.
fn start_bucket(l: usize, hash: u32) -> usize
    requires { power_of_two l ≡ true }
    ensures { (result ≡ start_of l hash) × (result < l) }
{
    ((hash as usize) + 1) & (l - 1)
}

// A lookup in the standing table of l buckets from bucket `first` on.
pub fn find(
    table: &[u32],
    keys: &[u8],
    arena: Arena,
    first: usize,
    l: usize,
    hash: u32,
    name: &[u8],
) -> Walk
    requires { (sensible arena (length keys.now) ≡ true) × ((power_of_two l ≡ true) × (2 * (first + l) ≤ length
        table.now)) }
    ensures { result ≡ lookup table.now keys.now arena first l hash name.now }
{
    let mut i = start_bucket(l, hash);
    for before in 0..l {
        match see(table, keys, arena, first + i, hash, name) {
            Seen::Nothing => return Walk {
                met: Met::Empty,
                looked: before + 1,
            },
            Seen::Same(at) => return Walk {
                met: Met::Standing(at),
                looked: before + 1,
            },
            Seen::Broken => return Walk {
                met: Met::Damaged,
                looked: before + 1,
            },
            Seen::Other => {}
        }
        i = next_bucket(l, i);
    }
    Walk {
        met: Met::Lap,
        looked: l,
    }
}

// The next occupied bucket among `left` from i.
pub fn next_occupied(table: &[u32], first: usize, left: usize, i: usize) -> Option<Occupied>
    requires { 2 * (first + (i + left)) ≤ length table.now }
    ensures { result ≡ occupied_from table.now first left i }
{
    for bucket in i..i + left {
        let place = table[2 * (first + bucket)];
        if place != limits::NULL {
            return Some(Occupied { bucket, place });
        }
    }
    None
}
