// The calls that change nothing but a lent output: lookup, length, reading, blocks, listing, the number of keys.
//
// It promises, for any state, any lent memory and any bytes: each call ends, stays inside what is lent, and answers or
// refuses by a number of documents 01 and 02, exactly as specs/ says; a refusal changes no byte of the output. Each
// contract is one equation: the answer, and the output as the call leaves it. It uses limits, murmurhash2,
// memory_arena, records, shared_arena_hashmap, expull_header, expull_walk and store_state.
#![tactic(auto)]

pub mod lane;
pub mod listing;

ghost use Rattle.std.specs.Prelude.{◌≡◌, true, ◌+◌, ◌≤◌, length};
ghost use Rattle.murmurhash2.specs.Murmur.{murmur_hash2};
ghost use Rattle.store_look.specs.Look.{lent, checked, walk_of};

use shared_arena_hashmap::Walk;
use store_state::State;

// A lookup's answer: either the record's place or the plain word absent, never both. The form is document 01's ("The
// shape of some places").
#[derive(Clone, Copy)]
pub enum Lookup {
    At(u32),
    Missing,
    Failed(u32),
}

// What a standing lane's list answers.
#[derive(Clone, Copy)]
pub enum Outcome {
    Length(u64),
    Reading(u64),
    Block(u32, u64),
    NoSuchBlock,
}

// An answer by name: absent, found with the list's outcome inside it, or refused with a number and what it tells. The
// form is document 01's ("The shape of some places"), and so is the outcome's.
#[derive(Clone, Copy)]
pub enum Answer {
    Absent,
    Found(Outcome),
    Refused(u32, u64),
}

// Beside each answer by name stands the walk: how many buckets the call's lookup looked at, the last one included, and
// 0 where the call was refused before its lookup or given the empty name (document 02, Ten).
#[derive(Clone, Copy)]
pub struct ToldLookup {
    pub answer: Lookup,
    pub walk: usize,
}

// The same of a call on a standing lane's list.
#[derive(Clone, Copy)]
pub struct ToldAnswer {
    pub answer: Answer,
    pub walk: usize,
}

// A listing's answer: the next occupied bucket and its record's place, none, or a refusal.
#[derive(Clone, Copy)]
pub enum Listed {
    Bucket(usize, u32),
    NoMore,
    Stopped(u32),
}

// The number of keys, or a refusal.
#[derive(Clone, Copy)]
pub enum Counted {
    Keys(usize),
    Unknown(u32),
}

// The walk of a name's lookup, in a store whose state is whole.
pub fn walk(st: State, table: &[u32], keys: &[u8], lists: &[u8], name: &[u8]) -> Walk
    requires { checked st (lent table.now keys.now lists.now) ≡ true }
    ensures { result
        ≡ walk_of st (lent table.now keys.now lists.now) name.now }
{
    let arena = st.key_arena;
    let first = store_state::first_bucket(st);
    let hash = murmurhash2::murmurhash2(name, st.seed);
    shared_arena_hashmap::find(table, keys, arena, first, st.buckets, hash, name)
}

// The same, where the name's hash is known already. `walk` isn't written over it: a lookup would then go through one
// function more that takes the state, and pay for it.
pub fn walk_hashed(
    st: State,
    table: &[u32],
    keys: &[u8],
    lists: &[u8],
    hash: u32,
    name: &[u8],
) -> Walk
    requires { (checked st (lent table.now keys.now lists.now) ≡ true)
        × (hash ≡ murmur_hash2 st.seed name.now) }
    ensures { result
        ≡ walk_of st (lent table.now keys.now lists.now) name.now }
{
    let arena = st.key_arena;
    let first = store_state::first_bucket(st);
    shared_arena_hashmap::find(table, keys, arena, first, st.buckets, hash, name)
}
