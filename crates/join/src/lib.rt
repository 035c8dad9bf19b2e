// A second store joined onto the first (document 02, Thirteen).
//
// It promises, for any two states, any lent memory and any scratch: each lane of the second store, in listing order and
// through its own record, is read into the scratch and appended to the first, until a refusal; the answer tells how
// many went across whole. specs/Join.antt is that: one equation for the state, the first store's memory and the
// scratch. The second store's memory is lent to be read only. It uses store_state, store_create, store_look,
// store_append, report_lanes, and history for the words of its definition.
#![tactic(auto)]

ghost use Rattle.std.specs.Prelude.{◌≡◌, true, length};
ghost use Rattle.limits.specs.Refusals.{joining, permitted};
ghost use Rattle.store_look.specs.Look.{lent, checked};
ghost use Rattle.store_append.specs.Append.{out as Append·out};
ghost use Rattle.report_lanes.specs.Lanes.{lane_at};
ghost use Rattle.join.specs.Join.{store, out, join_lanes, told_by, join_of};
ghost use Rattle.join.specs.Bring.{brought, bring_of, Ready, halted_of};
ghost use Rattle.join.specs.Said.{said_joined};

use store_append::Appended;
use store_state::State;

// The first store's state, and how many lanes went across: all of them, or up to a refusal's number.
#[derive(Clone, Copy)]
pub enum Joined {
    Whole(State, usize),
    Halted(State, u32, usize),
}

// One lane: read to the scratch's front, and appended under its name, which is a part of the second store's key pages.
fn bring(
    st: State,
    table: &mut [u32],
    keys: &mut [u8],
    lists: &mut [u8],
    st2: State,
    table2: &[u32],
    keys2: &[u8],
    lists2: &[u8],
    at: u32,
    name: usize,
    n: usize,
    scratch: &mut [u8],
) -> Appended
    requires { Ready (store st2 (lent table2.now keys2.now lists2.now)) at name n (length scratch.old) }
    ensures { brought (Append·out result (lent table.new keys.new lists.new))
        scratch.new
        ≡ bring_of (store st (lent table.old keys.old lists.old))
        (lane_at (lent table2.now keys2.now lists2.now) at) scratch.old }
{
    let from = (at as usize) + 2;
    let to = from + name;
    store_look::lane::read_at(st2, table2, keys2, lists2, at, scratch);
    let told = store_append::append(st, table, keys, lists, &keys2[from..to], &scratch[0..n]);
    let answer = told.answer;
    answer
}

// The answer where a lane's append was refused.
fn halted(a: Appended, lanes: usize) -> Joined
    ensures { result ≡ halted_of a lanes }
{
    match a {
        Appended::Accepted(st) => Joined::Whole(st, lanes),
        Appended::Declined(st, n) => Joined::Halted(st, n, lanes),
    }
}

// All lanes, until a refusal.
fn join_lanes(
    st: State,
    table: &mut [u32],
    keys: &mut [u8],
    lists: &mut [u8],
    st2: State,
    table2: &[u32],
    keys2: &[u8],
    lists2: &[u8],
    scratch: &mut [u8],
) -> Joined
    requires { checked st2 (lent table2.now keys2.now lists2.now) ≡ true }
    ensures { out result (lent table.new keys.new lists.new) scratch.new
        ≡ join_lanes (told_by (store st2 (lent table2.now keys2.now lists2.now)))
        (store st (lent table.old keys.old lists.old)) 0 scratch.old }
{
    let mut state = st;
    let mut index = 0;
    let mut lanes = 0;
    for _ in 0..st2.buckets {
        let next = match report_lanes::next_lane(st2, table2, keys2, lists2, index) {
            Ok(Some(lane)) => lane,
            Ok(None) => return Joined::Whole(state, lanes),
            Err(refusal) => return Joined::Halted(state, refusal.number(), lanes),
        };
        if (scratch.len() as u64) < next.bytes {
            return Joined::Halted(state, 8, lanes);
        }
        let a = bring(
            state,
            table,
            keys,
            lists,
            st2,
            table2,
            keys2,
            lists2,
            next.at,
            next.name as usize,
            next.bytes as usize,
            scratch,
        );
        let Appended::Accepted(s) = a else {
            return halted(a, lanes);
        };
        state = s;
        index = next.bucket + 1;
        lanes += 1;
    }
    Joined::Whole(state, lanes)
}

// Joins a second store, in its own memory, onto the first.
pub fn join(
    st: State,
    table: &mut [u32],
    keys: &mut [u8],
    lists: &mut [u8],
    st2: State,
    table2: &[u32],
    keys2: &[u8],
    lists2: &[u8],
    scratch: &mut [u8],
) -> Joined
    ensures settled { out result (lent table.new keys.new lists.new)
        scratch.new
        ≡ join_of (store st (lent table.old keys.old lists.old))
        (store st2 (lent table2.now keys2.now lists2.now)) scratch.old }
    ensures numbered { permitted joining (said_joined result) ≡ true }
{
    if !store_state::is_whole_state(st, table.len(), keys.len(), lists.len()) {
        return Joined::Halted(st, 2, 0);
    }
    if !store_state::is_whole_state(st2, table2.len(), keys2.len(), lists2.len()) {
        return Joined::Halted(st, 2, 0);
    }
    join_lanes(st, table, keys, lists, st2, table2, keys2, lists2, scratch)
}
