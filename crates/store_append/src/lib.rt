// The append: a lane's name is the key, a list header the value; keys and lists live in two separate arenas, the table
// in lent words. Everything is planned before anything is written.
//
// It promises, for any state, any lent memory and any bytes: the call ends, stays inside what is lent, and accepts or
// refuses by a number of documents 01 and 02, exactly as specs/ says; a refusal changes no lent byte or word and gives
// the state back equal. Its contract is one equation: the answer and every lent slice as the call leaves it. It uses
// limits, spans, murmurhash2, fastcpy, memory_arena, records, shared_arena_hashmap, expull_header, expull_append,
// store_state and store_look.
#![tactic(auto)]

ghost use Rattle.std.specs.Prelude.{◌≡◌, true, false, ◌+◌, ◌/◌, ◌≤◌, ◌<◌, length};
ghost use Rattle.limits.specs.Limits.{name_limit, bucket_limit};
ghost use Rattle.limits.specs.Refusals.{appending, permitted};
ghost use Rattle.shared_arena_hashmap.specs.Power.{grown_length};
ghost use Rattle.records.specs.Record.{value_place};
ghost use Rattle.shared_arena_hashmap.specs.Grow.{entered};
ghost use Rattle.expull_header.specs.Header.{fresh};
ghost use Rattle.expull_append.specs.Append.{writing, appended};
ghost use Rattle.store_append.specs.Said.{said_appended};
ghost use Rattle.store_state.specs.State.{first_of};
ghost use Rattle.store_state.specs.Name.{name_limit_of, name_kind};
ghost use Rattle.store_look.specs.Look.{lent, checked, walk_of, looked_of};
ghost use Rattle.store_append.specs.Append.{out, room_to_grow, is_saturated, is_crowded, grows, grown_state, state_grown};
ghost use Rattle.store_append.specs.Append.{table_grown, moved_state, append_standing, Planned, standing_written};
ghost use Rattle.store_append.specs.Append.{new_written, append_new, on_met, append_of, Looked, LastEmpty, Carried};

use expull_header::Header;
use memory_arena::{Arena, Room};
use shared_arena_hashmap::Met;
use store_state::{Name, State};

// An append's answer: the state comes back either way.
#[derive(Clone, Copy)]
pub enum Appended {
    Accepted(State),
    Declined(State, u32),
}

// An append's answer, and beside it the walk: how many buckets the lookup of its name looked at, before any growth, the
// last one included; 0 where it was refused before that (document 02, Ten).
#[derive(Clone, Copy)]
pub struct ToldAppend {
    pub answer: Appended,
    pub walk: usize,
}

pub fn is_saturated(st: State) -> bool
    requires { (st.keys ≤ st.buckets) × (st.buckets ≤ bucket_limit) }
    ensures { result ≡ is_saturated st }
{
    st.buckets <= 2 * st.keys
}

// The length of a grown table.
fn grown_length(buckets: usize) -> usize
    requires { buckets ≤ bucket_limit }
    ensures { result ≡ grown_length buckets }
{
    (2 * buckets).max(8)
}

fn has_room_to_grow(st: State) -> bool
    requires { st.buckets ≤ bucket_limit }
    ensures { result ≡ room_to_grow st }
{
    st.buckets + grown_length(st.buckets) <= st.words / 2
}

// Saturated and without room to grow: no new key can be entered.
fn is_crowded(st: State) -> bool
    requires { (st.keys ≤ st.buckets) × (st.buckets ≤ bucket_limit) }
    ensures { result ≡ is_crowded st }
{
    is_saturated(st) && !has_room_to_grow(st)
}

// Whether an append grows the table: it is saturated and has room for that.
fn grows(st: State) -> bool
    requires { (st.keys ≤ st.buckets) × (st.buckets ≤ bucket_limit) }
    ensures { result ≡ grows st }
{
    is_saturated(st) && has_room_to_grow(st)
}

// The state with the grown table at the other end.
fn grown_state(st: State) -> State
    requires { st.buckets ≤ bucket_limit }
    ensures { result ≡ grown_state st }
{
    State {
        buckets: grown_length(st.buckets),
        back: !st.back,
        ..st
    }
}

// Grows the table where it is saturated and has room to grow.
fn grow_table(st: State, table: &mut [u32]) -> State
    requires { (st.words ≡ length table.old)
        × ((st.buckets ≤ st.words / 2)
        × ((0 < st.buckets) × ((st.keys ≤ st.buckets) × (st.buckets ≤ bucket_limit)))) }
    ensures { (result ≡ state_grown st) × (table.new ≡ table_grown st table.old) }
{
    if !grows(st) {
        return st;
    }
    let old = store_state::first_bucket(st);
    let next = grown_state(st);
    let first = store_state::first_bucket(next);
    shared_arena_hashmap::grow::resize(table, st.buckets, old, first, next.buckets);
    next
}

// The state with other arena states and another number of keys.
fn moved_state(st: State, keys: usize, key_arena: Arena, list_arena: Arena) -> State
    ensures { result ≡ moved_state st keys key_arena list_arena }
{
    State {
        keys,
        key_arena,
        list_arena,
        ..st
    }
}

// Writes what an append to a standing lane has planned: the list, its header, the table where it grows.
fn write_standing(
    st: State,
    table: &mut [u32],
    keys: &mut [u8],
    lists: &mut [u8],
    at: u32,
    h: Header,
    bytes: &[u8],
) -> Appended
    requires planned { Planned st (lent table.old keys.old lists.old) h bytes.now }
    requires at_in_bounds { (at + 2 ≤ length keys.old) × (value_place keys.old at + 16 ≤ length keys.old) }
    ensures { out result (lent table.new keys.new lists.new)
        ≡ standing_written (appended bytes.now (writing lists.old st.list_arena h)) st
        (lent table.old keys.old lists.old) at }
{
    let list = expull_append::extend_from_slice(lists, st.list_arena, h, bytes);
    let place = records::value_place(keys, at);
    expull_header::put_header(keys, place, list.header);
    let grown = grow_table(st, table);
    Appended::Accepted(moved_state(grown, st.keys, st.key_arena, list.arena))
}

// An append to a standing lane, whose record is at a place.
fn append_standing(
    st: State,
    table: &mut [u32],
    keys: &mut [u8],
    lists: &mut [u8],
    at: u32,
    bytes: &[u8],
) -> Appended
    requires { (checked st (lent table.old keys.old lists.old) ≡ true)
        × ((at + 2 ≤ length keys.old) × (value_place keys.old at + 16 ≤ length keys.old)) }
    ensures { out result (lent table.new keys.new lists.new)
        ≡ append_standing st (lent table.old keys.old lists.old) at
        bytes.now }
{
    let Some(h) = records::get_head(keys, at) else {
        return Appended::Declined(st, 4);
    };
    if !expull_append::is_good_tail(st.list_arena, h) {
        return Appended::Declined(st, 4);
    }
    if !expull_append::blocks_fit(st.list_arena, lists.len(), h, bytes.len()) {
        return Appended::Declined(st, 7);
    }
    write_standing(st, table, keys, lists, at, h, bytes)
}

// Writes what an append to a new lane has planned: the list, the record, the table and the new bucket in it.
fn write_new(
    st: State,
    table: &mut [u32],
    keys: &mut [u8],
    lists: &mut [u8],
    name: &[u8],
    bytes: &[u8],
    room: Room,
    hash: u32,
    looked: usize,
) -> Appended
    requires planned { Planned st (lent table.old keys.old lists.old) fresh bytes.now }
    requires carried { Carried st (lent table.old keys.old lists.old) name.now hash looked
        × (is_crowded st ≡ false) }
    requires name_len_bound { (length name.now ≤ name_limit) × (room.at + (length name.now + 18) ≤ length keys.old) }
    ensures { out result (lent table.new keys.new lists.new)
        ≡ new_written (appended bytes.now (writing lists.old st.list_arena fresh)) st
        (lent table.old keys.old lists.old) name.now room.at room.after }
{
    let h = expull_header::fresh_header();
    let list = expull_append::extend_from_slice(lists, st.list_arena, h, bytes);
    records::put_record(keys, room.at as usize, name, list.header);
    let grown = grow_table(st, table);
    enter_new(st.buckets, grown, table, room.at, hash, looked);
    Appended::Accepted(moved_state(grown, st.keys + 1, room.after, list.arena))
}

// Enters a new record in the table: as long as it has the buckets of before, in the empty one that the lookup met. One
// that has grown is another table, and is probed.
fn enter_new(before: usize, grown: State, table: &mut [u32], at: u32, hash: u32, looked: usize)
    requires buckets_nonzero { (0 < grown.buckets) × ((grown.buckets ≤ grown.words / 2) × (grown.words ≡ length table.old)) }
    requires last_empty { grown.buckets ≡ before → LastEmpty grown table.old hash looked }
    ensures { table.new ≡ entered (first_of grown) grown.buckets at hash table.old }
{
    let first = store_state::first_bucket(grown);
    if grown.buckets == before {
        shared_arena_hashmap::grow::enter_met(table, first, grown.buckets, at, hash, looked);
        return;
    }
    shared_arena_hashmap::grow::enter(table, first, grown.buckets, at, hash);
}

// An append to a name that doesn't stand.
fn append_new(
    st: State,
    table: &mut [u32],
    keys: &mut [u8],
    lists: &mut [u8],
    name: &[u8],
    bytes: &[u8],
    hash: u32,
    looked: usize,
) -> Appended
    requires lists_value { (checked st (lent table.old keys.old lists.old) ≡ true)
        × (length name.now ≤ name_limit_of st) }
    requires carried { Carried st (lent table.old keys.old lists.old) name.now hash looked }
    ensures { out result (lent table.new keys.new lists.new)
        ≡ append_new st (lent table.old keys.old lists.old) name.now
        bytes.now }
{
    if is_crowded(st) {
        return Appended::Declined(st, 5);
    }
    let n = name.len() + limits::RECORD_EXTRA;
    let Some(room) = st.key_arena.find_room(keys.len(), n) else {
        return Appended::Declined(st, 6);
    };
    let h = expull_header::fresh_header();
    if !expull_append::blocks_fit(st.list_arena, lists.len(), h, bytes.len()) {
        return Appended::Declined(st, 7);
    }
    write_new(st, table, keys, lists, name, bytes, room, hash, looked)
}

// After a lap without an empty bucket: damage, unless the table is saturated.
fn append_after_lap(
    st: State,
    table: &mut [u32],
    keys: &mut [u8],
    lists: &mut [u8],
    name: &[u8],
    bytes: &[u8],
    hash: u32,
    looked: usize,
) -> Appended
    requires { Looked st (lent table.old keys.old lists.old) name.now hash Met.Lap looked }
    ensures { out result (lent table.new keys.new lists.new)
        ≡ on_met Met.Lap st (lent table.old keys.old lists.old) name.now
        bytes.now }
{
    if is_saturated(st) {
        return append_new(st, table, keys, lists, name, bytes, hash, looked);
    }
    Appended::Declined(st, 4)
}

// An append to a name that was looked up: by its hash, by what that lookup met and how many buckets it looked at.
pub fn append_met(
    st: State,
    table: &mut [u32],
    keys: &mut [u8],
    lists: &mut [u8],
    name: &[u8],
    bytes: &[u8],
    hash: u32,
    met: Met,
    looked: usize,
) -> Appended
    requires { Looked st (lent table.old keys.old lists.old) name.now hash met looked }
    ensures { out result (lent table.new keys.new lists.new)
        ≡ on_met met st (lent table.old keys.old lists.old) name.now
        bytes.now }
{
    match met {
        Met::Damaged => Appended::Declined(st, 4),
        Met::Standing(at) => append_standing(st, table, keys, lists, at, bytes),
        Met::Empty => append_new(st, table, keys, lists, name, bytes, hash, looked),
        Met::Lap => append_after_lap(st, table, keys, lists, name, bytes, hash, looked),
    }
}

// An append to a name that passed the guard: its lookup, and then what that met.
fn append_proper(
    st: State,
    table: &mut [u32],
    keys: &mut [u8],
    lists: &mut [u8],
    name: &[u8],
    bytes: &[u8],
) -> ToldAppend
    requires { (checked st (lent table.old keys.old lists.old) ≡ true)
        × (name_kind st (length name.now) ≡ Name.Proper) }
    ensures settled { out result.answer (lent table.new keys.new lists.new)
        ≡ on_met
        (walk_of st (lent table.old keys.old lists.old) name.now).met
        st (lent table.old keys.old lists.old) name.now
        bytes.now }
    ensures walked { result.walk
        ≡ (walk_of st (lent table.old keys.old lists.old) name.now).looked }
{
    let hash = murmurhash2::murmurhash2(name, st.seed);
    let w = store_look::walk_hashed(st, table, keys, lists, hash, name);
    let answer = append_met(st, table, keys, lists, name, bytes, hash, w.met, w.looked);
    ToldAppend {
        answer,
        walk: w.looked,
    }
}

// Appends bytes to the lane of a name, which is entered where it doesn't stand; the empty name is refused.
pub fn append(
    st: State,
    table: &mut [u32],
    keys: &mut [u8],
    lists: &mut [u8],
    name: &[u8],
    bytes: &[u8],
) -> ToldAppend
    ensures settled { out result.answer (lent table.new keys.new lists.new)
        ≡ append_of st (lent table.old keys.old lists.old) name.now
        bytes.now }
    ensures numbered { permitted appending (said_appended result.answer) ≡ true }
    ensures walked { result.walk
        ≡ looked_of st (lent table.old keys.old lists.old) name.now }
{
    if !store_state::is_whole_state(st, table.len(), keys.len(), lists.len()) {
        return ToldAppend {
            answer: Appended::Declined(st, 2),
            walk: 0,
        };
    }
    match store_state::name_kind(st, name.len()) {
        Name::TooLong => ToldAppend {
            answer: Appended::Declined(st, 3),
            walk: 0,
        },
        Name::Nameless => ToldAppend {
            answer: Appended::Declined(st, 13),
            walk: 0,
        },
        Name::Proper => append_proper(st, table, keys, lists, name, bytes),
    }
}
