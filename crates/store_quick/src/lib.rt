// A short way for what nearly every append is: the lane stands, the bytes fit its last block, and the table stays.
//
// It promises, for any state, any lent memory and any bytes: where it says that the append is done, all is as the
// append itself would leave it; where it doesn't, nothing has changed, and it tells the refusal, or the lookup that the
// append goes on from. It uses murmurhash2, records, shared_arena_hashmap, expull_header, expull_append, store_state,
// store_look and store_append.
#![tactic(auto)]

ghost use Rattle.std.specs.Prelude.{◌≡◌, true, ◌+◌, ◌≤◌, length};
ghost use Rattle.limits.specs.Limits.{page_taken, bucket_limit};
ghost use Rattle.spans.specs.Span.{overwrite};
ghost use Rattle.memory_arena.specs.Calls.{sensible};
ghost use Rattle.records.specs.Record.{value_place};
ghost use Rattle.expull_header.specs.Header.{header_bytes};
ghost use Rattle.store_state.specs.Name.{name_kind};
ghost use Rattle.store_look.specs.Look.{lent, checked};
ghost use Rattle.store_append.specs.Append.{append_standing, append_of};
ghost use Rattle.store_quick.specs.Quick.{Quick, quickly, QuickOf, TriedOf};

use expull_append::Extended;
use shared_arena_hashmap::Met;
use store_state::{Name, State};

// How far the short way of an append got: the append is done, or refused by a number before its lookup; or the name was
// looked up, by this hash, and this is what that met and how many buckets it looked at.
#[derive(Clone, Copy)]
pub enum Tried {
    Done,
    Refused(u32),
    LookedUp(u32, Met, usize),
}

// Whether an append of n bytes to the lane at a place needs no block, and leaves the table as it is.
fn is_quick(st: State, keys: &[u8], at: u32, n: usize) -> bool
    requires at_in_bounds { (at + 2 ≤ length keys.now) × (value_place keys.now at + 16 ≤ length keys.now) }
    requires keys_le_buckets { (st.keys ≤ st.buckets) × (st.buckets ≤ bucket_limit) }
    requires list_arena_value { page_taken st.list_arena.size ≡ true }
    ensures { result ≡ true → Quick st keys.now at n }
{
    let arena = st.list_arena;
    let Some(h) = records::get_head(keys, at) else {
        return false;
    };
    if !expull_append::is_good_tail(arena, h) {
        return false;
    }
    if (h.remaining as usize) < n {
        return false;
    }
    if n == 0 {
        return false;
    }
    !store_append::is_saturated(st)
}

// Such an append: the bytes to the last block, and the header moved on.
fn write_quick(st: State, keys: &mut [u8], lists: &mut [u8], at: u32, bytes: &[u8])
    requires quick { Quick st keys.old at (length bytes.now) }
    requires lists_value { (sensible st.list_arena (length lists.old) ≡ true)
        × ((at + 2 ≤ length keys.old) × (value_place keys.old at + 16 ≤ length keys.old)) }
    ensures { (keys.new
        ≡ overwrite (value_place keys.old at)
        (header_bytes (quickly st keys.old lists.old at bytes.now).header)
        keys.old)
        × (lists.new
        ≡ (quickly st keys.old lists.old at bytes.now).memory) }
{
    let arena = st.list_arena;
    let place = records::value_place(keys, at);
    let h = expull_header::get_header(keys, place);
    let w = Extended { header: h, arena };
    let list = expull_append::put_chunk(lists, w, bytes);
    expull_header::put_header(keys, place, list.header);
}

// The same for the lane at a place, where it is such an append.
fn quick_standing(
    st: State,
    table: &[u32],
    keys: &mut [u8],
    lists: &mut [u8],
    at: u32,
    bytes: &[u8],
) -> bool
    requires { (checked st (lent table.now keys.old lists.old) ≡ true)
        × ((at + 2 ≤ length keys.old) × (value_place keys.old at + 16 ≤ length keys.old)) }
    ensures { QuickOf result st (lent table.now keys.old lists.old)
        (lent table.now keys.new lists.new)
        (append_standing st (lent table.now keys.old lists.old) at
        bytes.now) }
{
    if is_quick(st, keys, at, bytes.len()) {
        write_quick(st, keys, lists, at, bytes);
        return true;
    }
    false
}

// The same by name. Where it isn't such an append, nothing has changed, and the lookup of the name is handed on.
fn try_proper(
    st: State,
    table: &[u32],
    keys: &mut [u8],
    lists: &mut [u8],
    name: &[u8],
    bytes: &[u8],
) -> Tried
    requires { (checked st (lent table.now keys.old lists.old) ≡ true)
        × (name_kind st (length name.now) ≡ Name.Proper) }
    ensures { TriedOf result st (lent table.now keys.old lists.old)
        (lent table.now keys.new lists.new) name.now
        (append_of st (lent table.now keys.old lists.old) name.now
        bytes.now) }
{
    let arena = st.key_arena;
    let first = store_state::first_bucket(st);
    let hash = murmurhash2::murmurhash2(name, st.seed);
    let w = shared_arena_hashmap::find(table, keys, arena, first, st.buckets, hash, name);
    let met = w.met;
    let Met::Standing(at) = met else {
        return Tried::LookedUp(hash, met, w.looked);
    };
    if quick_standing(st, table, keys, lists, at, bytes) {
        return Tried::Done;
    }
    Tried::LookedUp(hash, met, w.looked)
}

// Does an append that is such a one: the state stays as it is. Else it changes nothing, and tells the refusal, or what
// `append_met` goes on from.
pub fn try_append(
    st: State,
    table: &[u32],
    keys: &mut [u8],
    lists: &mut [u8],
    name: &[u8],
    bytes: &[u8],
) -> Tried
    ensures { TriedOf result st (lent table.now keys.old lists.old)
        (lent table.now keys.new lists.new) name.now
        (append_of st (lent table.now keys.old lists.old) name.now
        bytes.now) }
{
    if !store_state::is_whole_state(st, table.len(), keys.len(), lists.len()) {
        return Tried::Refused(2);
    }
    let n = name.len();
    if n == 0 {
        return Tried::Refused(13);
    }
    if store_state::name_limit(st) < n {
        return Tried::Refused(3);
    }
    try_proper(st, table, keys, lists, name, bytes)
}
