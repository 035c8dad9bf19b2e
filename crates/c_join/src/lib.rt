// The join of two stores in C's calling form (document 02, Twelve and Thirteen). c_exports gives it its C name.
//
// It promises, for any areas: the answer is join's own on the states that the two state areas hold; the state that the
// join gives, whole or stopped, is in the first store's area, so that lanes which went across stay when it stops; how
// many did is told; a short or senseless area of either store is 2. specs/Joined.antt is that. It uses c_told,
// state_area and join.
#![tactic(auto)]

ghost use Rattle.std.specs.Prelude.{◌≡◌, ◌≤◌, length};
ghost use Rattle.store_look.specs.Look.{lent};
ghost use Rattle.state_area.specs.Area.{area_size};
ghost use Rattle.c_join.specs.Joined.{saved_joined, joining, join_in};

use join::Joined;

// The state that the join gives goes to the area, how many lanes went across is told.
fn save_joined(state: &mut [u8], told: &mut [u32], answer: Joined) -> u32
    requires { area_size ≤ length state.old }
    ensures { ((result, told.new), state.new)
        ≡ saved_joined answer told.old state.old }
{
    match answer {
        Joined::Whole(st, lanes) => {
            state_area::save(state, st);
            c_told::tell(told, 0, lanes as u64, 0)
        }
        Joined::Halted(st, n, lanes) => {
            state_area::save(state, st);
            c_told::tell(told, n, lanes as u64, 0)
        }
    }
}

// Joins a second store, in its own areas, onto the first.
pub fn join(
    state: &mut [u8],
    table: &mut [u32],
    keys: &mut [u8],
    lists: &mut [u8],
    state2: &[u8],
    table2: &[u32],
    keys2: &[u8],
    lists2: &[u8],
    scratch: &mut [u8],
    told: &mut [u32],
) -> u32
    ensures settled { joining ((result, told.new), state.new)
        (lent table.new keys.new lists.new) scratch.new
        ≡ join_in state.old (lent table.old keys.old lists.old)
        state2.now (lent table2.now keys2.now lists2.now)
        scratch.old told.old }
{
    if !state_area::is_sensible_area(state) {
        return c_told::tell(told, 2, 0, 0);
    }
    if !state_area::is_sensible_area(state2) {
        return c_told::tell(told, 2, 0, 0);
    }
    let st = state_area::load(state);
    let st2 = state_area::load(state2);
    let answer = join::join(st, table, keys, lists, st2, table2, keys2, lists2, scratch);
    save_joined(state, told, answer)
}
