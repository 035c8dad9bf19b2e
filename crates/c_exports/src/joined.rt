// The join of two stores. The work is in c_join; here it gets its C name.
ghost use Rattle.std.specs.Prelude.{◌≡◌};
ghost use Rattle.store_look.specs.Look.{lent};
ghost use Rattle.c_join.specs.Joined.{joining, join_in};

// Joins a second store, in its own areas, onto the first; how many lanes went across is told.
#[unsafe(no_mangle)]
pub extern "C" fn nuvrisel_join(
    state: &mut [u8],
    table: &mut [u32],
    keys: &mut [u8],
    lists: &mut [u8],
    state2: &[u8],
    table2: &[u32],
    keys2: &[u8],
    lists2: &[u8],
    scratch: &mut [u8],
    told: &mut [u32],
) -> u32
    ensures settled { joining ((result, told.new), state.new)
        (lent table.new keys.new lists.new) scratch.new
        ≡ join_in state.old (lent table.old keys.old lists.old)
        state2.now (lent table2.now keys2.now lists2.now)
        scratch.old told.old }
{
    c_join::join(
        state, table, keys, lists, state2, table2, keys2, lists2, scratch, told,
    )
}
