// The listing of the table's buckets, and the number of keys.
ghost use Rattle.std.specs.Prelude.{◌≡◌, true, length};
ghost use Rattle.limits.specs.Refusals.{listing_buckets, counting_keys, permitted};
ghost use Rattle.memory_arena.specs.Calls.{sensible};
ghost use Rattle.store_look.specs.Said.{said_listed, said_counted};
ghost use Rattle.store_look.specs.Look.{lent, on_next, next_of, count_of};

use crate::{Counted, Listed};
use memory_arena::Arena;
use shared_arena_hashmap::Occupied;
use store_state::State;

fn on_next(keys: &[u8], arena: Arena, next: Option<Occupied>) -> Listed
    requires { sensible arena (length keys.now) ≡ true }
    ensures { result ≡ on_next next arena keys.now }
{
    match next {
        Some(o) => {
            if records::is_good_record(keys, arena, o.place) {
                return Listed::Bucket(o.bucket, o.place);
            }
            Listed::Stopped(4)
        }
        None => Listed::NoMore,
    }
}

// The next occupied bucket from an index on, that one included.
pub fn next_occupied(st: State, table: &[u32], keys: &[u8], lists: &[u8], index: usize) -> Listed
    ensures settled { result
        ≡ next_of st (lent table.now keys.now lists.now) index }
    ensures numbered { permitted listing_buckets (said_listed result) ≡ true }
{
    if !store_state::is_whole_state(st, table.len(), keys.len(), lists.len()) {
        return Listed::Stopped(2);
    }
    let arena = st.key_arena;
    let buckets = st.buckets;
    if buckets <= index {
        return Listed::NoMore;
    }
    let first = store_state::first_bucket(st);
    let next = shared_arena_hashmap::next_occupied(table, first, buckets - index, index);
    on_next(keys, arena, next)
}

// The number of keys.
pub fn key_count(st: State, table: &[u32], keys: &[u8], lists: &[u8]) -> Counted
    ensures settled { result ≡ count_of st (lent table.now keys.now lists.now) }
    ensures numbered { permitted counting_keys (said_counted result) ≡ true }
{
    if store_state::is_whole_state(st, table.len(), keys.len(), lists.len()) {
        return Counted::Keys(st.keys);
    }
    Counted::Unknown(2)
}
