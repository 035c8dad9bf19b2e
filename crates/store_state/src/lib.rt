// What the store remembers between calls, the check that comes first in each call, and the guard of names.
//
// It promises, for any state, any lengths and any name: whether the state is whole, and what the name is to the store,
// exactly as specs/ says. It changes nothing. `first_bucket`, an inner function, asks that the table is no longer than
// the lent words. It uses limits, memory_arena and shared_arena_hashmap.
#![tactic(auto)]

ghost use Rattle.std.specs.Prelude.{◌≡◌, ◌≤◌, ◌/◌};
ghost use Rattle.store_state.specs.State.{whole_state, words_taken, lengths_equal, table_fits, first_of};
ghost use Rattle.store_state.specs.Name.{name_limit_of, name_kind};

use memory_arena::Arena;

// What the store remembers between calls (document 01, "Numbers that bound the store").
#[derive(Clone, Copy)]
pub struct State {
    pub seed: u32,
    // the three lent lengths: words of the table, bytes of the key pages and of the list pages
    pub words: usize,
    pub key_bytes: usize,
    pub list_bytes: usize,
    // the standing table: its buckets, whether it stands at the back of the lent words, and the keys in it
    pub buckets: usize,
    pub back: bool,
    pub keys: usize,
    // each arena's current page and the bytes used there; both keep the page size, which is one
    pub key_arena: Arena,
    pub list_arena: Arena,
}

// What a name is to the store: over the limit, of no bytes, or one that a lane can have.
#[derive(Clone, Copy)]
pub enum Name {
    TooLong,
    Nameless,
    Proper,
}

// The first bucket of the standing table.
pub fn first_bucket(st: State) -> usize
    requires { st.buckets ≤ st.words / 2 }
    ensures { result ≡ first_of st }
{
    if st.back {
        st.words / 2 - st.buckets
    } else {
        0
    }
}

// Bytes of the longest name that the store takes: a longer one's record exceeds a page, or its length two bytes.
pub fn name_limit(st: State) -> usize
    ensures { result ≡ name_limit_of st }
{
    let room = st.key_arena.size.saturating_sub(limits::RECORD_EXTRA);
    room.min(limits::NAME_LIMIT)
}

// The guard of names, which every call by name asks before it looks anything up.
pub fn name_kind(st: State, n: usize) -> Name
    ensures { result ≡ name_kind st n }
{
    let is_too_long = name_limit(st) < n;
    if is_too_long {
        Name::TooLong
    } else if n == 0 {
        Name::Nameless
    } else {
        Name::Proper
    }
}

// Table words such as creation takes.
pub fn is_taken(words: usize) -> bool
    ensures { result ≡ words_taken words }
{
    words % 2 == 0 && words <= limits::WORD_LIMIT
}

fn are_lengths_equal(st: State, words: usize, key_bytes: usize, list_bytes: usize) -> bool
    ensures { result ≡ lengths_equal st words key_bytes list_bytes }
{
    st.words == words && st.key_bytes == key_bytes && st.list_bytes == list_bytes
}

fn does_table_fit(st: State, words: usize) -> bool
    ensures { result ≡ table_fits st words }
{
    shared_arena_hashmap::is_power_of_two(st.buckets)
        && st.buckets <= words / 2
        && st.keys <= st.buckets
}

// The check that comes first in each store call.
pub fn is_whole_state(st: State, words: usize, key_bytes: usize, list_bytes: usize) -> bool
    ensures { result ≡ whole_state st words key_bytes list_bytes }
{
    are_lengths_equal(st, words, key_bytes, list_bytes)
        && is_taken(words)
        && does_table_fit(st, words)
        && st.key_arena.size == st.list_arena.size
        && st.key_arena.is_sensible(key_bytes)
        && st.list_arena.is_sensible(list_bytes)
}
