// Creation: a fresh store over lent memory.
//
// It promises, for any numbers and any lent memory: it ends, stays inside what is lent, and makes the store or refuses
// it by number 1, exactly as specs/ says: one equation over the answer and the lent table; a refusal changes no word.
// It uses limits, memory_arena, shared_arena_hashmap and store_state.
#![tactic(auto)]

ghost use Rattle.std.specs.Prelude.{◌≡◌, true, length};
ghost use Rattle.limits.specs.Limits.{page_taken, arena_limit_for};
ghost use Rattle.limits.specs.Refusals.{creating, permitted};
ghost use Rattle.memory_arena.specs.Pages.{lendable};
ghost use Rattle.store_create.specs.Said.{said_created};
ghost use Rattle.store_create.specs.Create.{out, creatable, fresh_state, create_of};

use limits::Refusal;
use memory_arena::Arena;
use store_state::State;

fn is_lendable(size: usize, len: usize) -> bool
    requires { page_taken size ≡ true }
    ensures { result ≡ lendable (arena_limit_for size) len }
{
    0 < len && len <= limits::ADDRESSES - size
}

// What creation takes. The rounded capacity is compared with the lent buckets, never doubled: it may be 2^63. Public
// for a caller that may refuse a creation by a higher number, and must not where this refuses it.
pub fn is_creatable(
    capacity: usize,
    size: usize,
    words: usize,
    key_bytes: usize,
    list_bytes: usize,
) -> bool
    ensures { result ≡ creatable capacity size words key_bytes list_bytes }
{
    memory_arena::is_page_size(size)
        && 0 < capacity
        && is_lendable(size, key_bytes)
        && is_lendable(size, list_bytes)
        && store_state::is_taken(words)
        && shared_arena_hashmap::compute_previous_power_of_two(capacity) <= words / 2
}

fn fresh_state(
    seed: u32,
    size: usize,
    words: usize,
    key_bytes: usize,
    list_bytes: usize,
    buckets: usize,
) -> State
    ensures { result ≡ fresh_state seed size words key_bytes list_bytes buckets }
{
    let unused = Arena {
        page: 0,
        used: 0,
        size,
    };
    State {
        seed,
        words,
        key_bytes,
        list_bytes,
        buckets,
        back: false,
        keys: 0,
        key_arena: unused,
        list_arena: unused,
    }
}

// A store of a capacity, rounded down to a power of two, over lent words and over pages of a size. Only the table's
// first words are written.
pub fn create(
    capacity: usize,
    seed: u32,
    size: usize,
    table: &mut [u32],
    keys: &[u8],
    lists: &[u8],
) -> Result<State, Refusal>
    ensures settled { out result table.new
        ≡ create_of capacity seed size table.old (length keys.now)
        (length lists.now) }
    ensures numbered { permitted creating (said_created result) ≡ true }
{
    let words = table.len();
    let key_bytes = keys.len();
    let list_bytes = lists.len();
    if !is_creatable(capacity, size, words, key_bytes, list_bytes) {
        return Err(Refusal::NotCreatable);
    }
    let buckets = shared_arena_hashmap::compute_previous_power_of_two(capacity);
    shared_arena_hashmap::grow::clear(table, 0, buckets);
    Ok(fresh_state(seed, size, words, key_bytes, list_bytes, buckets))
}
