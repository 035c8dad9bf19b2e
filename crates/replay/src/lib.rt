// A whole shift in one call: a store is created on lent memory, and appends that stand one behind the other in a
// script are played on it.
//
// It promises demand 3 of running code: whatever the script holds, each name then reads as its accepted appends joined
// in order, and as absent where there was none; and every lent byte and word is what the appends leave one by one.
// specs/Script.antt says which appends a script holds. It uses limits, spans, entries (the form of a script),
// store_state, store_create, store_look, store_append and history, and the crates of the store's types.
#![tactic(auto)]

ghost use Rattle.std.specs.Prelude.{◌≡◌};
ghost use Rattle.store_look.specs.Look.{lent};
ghost use Rattle.history.specs.History.{appends, after, play, state_after};
ghost use Rattle.replay.specs.Script.{world, calls_of, out, replay_of, Replayed};

use limits::Refusal;
use store_append::Appended;
use store_state::State;

fn state_of(a: Appended) -> State
    ensures { result ≡ state_after a }
{
    match a {
        Appended::Accepted(st) | Appended::Declined(st, _) => st,
    }
}

// One entry's append.
fn play_entry(
    st: State,
    table: &mut [u32],
    keys: &mut [u8],
    lists: &mut [u8],
    name: &[u8],
    bytes: &[u8],
) -> State
    ensures { world result (lent table.new keys.new lists.new)
        ≡ after (appends name.now bytes.now) (world st (lent table.old keys.old lists.old)) }
{
    let a = store_append::append(st, table, keys, lists, name, bytes);
    state_of(a.answer)
}

// All entries, in order.
fn play_script(
    st: State,
    table: &mut [u32],
    keys: &mut [u8],
    lists: &mut [u8],
    script: &[u8],
) -> State
    ensures { world result (lent table.new keys.new lists.new)
        ≡ play (calls_of script.now)
        (world st (lent table.old keys.old lists.old)) }
{
    let mut state = st;
    let mut at = 0;
    while let Some(e) = entries::entry_at(script, at) {
        let name = &script[at + 2..e.name_end];
        let bytes = &script[e.from..e.to];
        state = play_entry(state, table, keys, lists, name, bytes);
        at = e.to;
    }
    state
}

// A store on lent memory, and a script's appends played on it: the state after the last, or refusal 1 and nothing
// changed.
pub fn replay(
    capacity: usize,
    seed: u32,
    size: usize,
    table: &mut [u32],
    keys: &mut [u8],
    lists: &mut [u8],
    script: &[u8],
) -> Result<State, Refusal>
    ensures settled { out result (lent table.new keys.new lists.new)
        ≡ replay_of capacity seed size (lent table.old keys.old lists.old)
        script.now }
    ensures replayed { Replayed capacity seed size
        (lent table.old keys.old lists.old) script.now
        result (lent table.new keys.new lists.new) }
{
    let st = store_create::create(capacity, seed, size, table, keys, lists)?;
    Ok(play_script(st, table, keys, lists, script))
}
