// The store in C's calling form, for the C++ controller (document 02, Twelve): numbers, byte areas, word areas. The
// state is in a lent area of 64 bytes (crate state_area, docs/LAYOUT.md); cpp/nuvrisel.h declares these functions.
//
// It promises, for any numbers and any areas: what the area holds is the state, and the answer is the store's, as
// specs/Calls.antt says over the store's own definitions; a short or senseless area is 2; a refusal changes no lent
// byte or word but the three in which an answer is told. It uses state_area, store_state, store_create, store_look,
// store_append, store_quick, store and the crates above the store whose calls it passes on.
#![tactic(auto)]

pub mod above;
pub mod joined;

ghost use Rattle.std.specs.Prelude.{◌≡◌, true, length};
ghost use Rattle.store_append.specs.Append.{Looked, append_of};
ghost use Rattle.store_look.specs.Look.{lent};
ghost use Rattle.state_area.specs.Area.{sensible_area, state_at};
ghost use Rattle.c_told.specs.Told.{appended};
ghost use Rattle.c_exports.specs.Calls.{create_in, append_in, lookup_in, length_in, next_in, read_in};

use c_told::{save_appended, save_created, tell, tell_answer, tell_listed, tell_lookup};
use shared_arena_hashmap::Met;
use store_quick::Tried;

// ---- create and append

// A fresh store over lent words and pages of `size` bytes; its state goes to the area.
#[unsafe(no_mangle)]
pub extern "C" fn nuvrisel_create(
    state: &mut [u8],
    capacity: usize,
    seed: u32,
    size: usize,
    table: &mut [u32],
    keys: &[u8],
    lists: &[u8],
) -> u32
    ensures settled { ((result, state.new), table.new)
        ≡ create_in capacity seed size state.old table.old (length keys.now)
        (length lists.now) }
{
    if !store_create::is_creatable(capacity, size, table.len(), keys.len(), lists.len()) {
        return 1;
    }
    if state.len() < state_area::AREA_SIZE {
        return 2;
    }
    let answer = store_create::create(capacity, seed, size, table, keys, lists);
    save_created(state, answer)
}

// An append that goes on from the lookup of its name, on an area that was found sensible. The state is read from it
// again: one that had to be kept since the short way was tried would cost every append.
fn append_fully(
    state: &mut [u8],
    table: &mut [u32],
    keys: &mut [u8],
    lists: &mut [u8],
    name: &[u8],
    bytes: &[u8],
    hash: u32,
    met: Met,
    looked: usize,
) -> u32
    requires { (sensible_area state.old ≡ true)
        × Looked (state_at state.old) (lent table.old keys.old lists.old) name.now hash met looked }
    ensures { ((result, state.new), lent table.new keys.new lists.new)
        ≡ appended (append_of (state_at state.old)
        (lent table.old keys.old lists.old) name.now bytes.now)
        state.old }
{
    let st = state_area::load(state);
    let answer = store_append::append_met(st, table, keys, lists, name, bytes, hash, met, looked);
    save_appended(state, answer)
}

// Appends bytes to the lane of a name.
#[unsafe(no_mangle)]
pub extern "C" fn nuvrisel_append(
    state: &mut [u8],
    table: &mut [u32],
    keys: &mut [u8],
    lists: &mut [u8],
    name: &[u8],
    bytes: &[u8],
) -> u32
    ensures settled { ((result, state.new), lent table.new keys.new lists.new)
        ≡ append_in state.old (lent table.old keys.old lists.old)
        name.now bytes.now }
{
    if !state_area::is_sensible_area(state) {
        return 2;
    }
    let st = state_area::load(state);
    let tried = store_quick::try_append(st, table, keys, lists, name, bytes);
    match tried {
        Tried::Done => 0,
        Tried::Refused(n) => n,
        Tried::LookedUp(hash, met, looked) => {
            append_fully(state, table, keys, lists, name, bytes, hash, met, looked)
        }
    }
}

// ---- what changes nothing but an output

// The place of a name's record.
#[unsafe(no_mangle)]
pub extern "C" fn nuvrisel_lookup(
    state: &[u8],
    table: &[u32],
    keys: &[u8],
    lists: &[u8],
    name: &[u8],
    told: &mut [u32],
) -> u32
    ensures settled { (result, told.new)
        ≡ lookup_in state.now (lent table.now keys.now lists.now)
        name.now told.old }
{
    if !state_area::is_sensible_area(state) {
        return tell(told, 2, 0, 0);
    }
    let st = state_area::load(state);
    let r = store_look::lane::lookup(st, table, keys, lists, name);
    let found = r.answer;
    tell_lookup(told, found)
}

// A lane's length.
#[unsafe(no_mangle)]
pub extern "C" fn nuvrisel_length(
    state: &[u8],
    table: &[u32],
    keys: &[u8],
    lists: &[u8],
    name: &[u8],
    told: &mut [u32],
) -> u32
    ensures settled { (result, told.new)
        ≡ length_in state.now (lent table.now keys.now lists.now)
        name.now told.old }
{
    if !state_area::is_sensible_area(state) {
        return tell(told, 2, 0, 0);
    }
    let st = state_area::load(state);
    let answer = store_look::lane::length_alone(st, table, keys, lists, name);
    tell_answer(told, answer)
}

// The next occupied bucket from an index on, and its record's place.
#[unsafe(no_mangle)]
pub extern "C" fn nuvrisel_next(
    state: &[u8],
    table: &[u32],
    keys: &[u8],
    lists: &[u8],
    index: usize,
    told: &mut [u32],
) -> u32
    ensures settled { (result, told.new)
        ≡ next_in state.now (lent table.now keys.now lists.now) index
        told.old }
{
    if !state_area::is_sensible_area(state) {
        return tell(told, 2, 0, 0);
    }
    let st = state_area::load(state);
    let next = store_look::listing::next_occupied(st, table, keys, lists, index);
    tell_listed(told, next)
}

// A lane's bytes to the front of the output.
#[unsafe(no_mangle)]
pub extern "C" fn nuvrisel_read(
    state: &[u8],
    table: &[u32],
    keys: &[u8],
    lists: &[u8],
    name: &[u8],
    output: &mut [u8],
    told: &mut [u32],
) -> u32
    ensures settled { ((result, told.new), output.new)
        ≡ read_in state.now (lent table.now keys.now lists.now)
        name.now output.old told.old }
{
    if !state_area::is_sensible_area(state) {
        return tell(told, 2, 0, 0);
    }
    let st = state_area::load(state);
    let r = store_look::lane::read(st, table, keys, lists, name, output);
    let answer = r.answer;
    tell_answer(told, answer)
}
