// The calls on one lane: lookup, length, reading, a block found and shown.
ghost use Rattle.std.specs.Prelude.{◌≡◌, true, ◌+◌, ◌≤◌, length};
ghost use Rattle.limits.specs.Refusals.{looking_up, measuring, reading_lane, finding_block, permitted};
ghost use Rattle.memory_arena.specs.Calls.{sensible};
ghost use Rattle.records.specs.Record.{value_place};
ghost use Rattle.store_state.specs.Name.{name_kind};
ghost use Rattle.store_look.specs.Said.{said_lookup, said_answer};
ghost use Rattle.store_look.specs.Look.{lent, checked, on_met, lookup_of, looked_of, not_found, length_at, length_of};
ghost use Rattle.store_look.specs.Look.{reading, read_at, read_of, on_block, block_at, find_block_of, show_of};

use crate::{Answer, Lookup, Outcome, ToldAnswer, ToldLookup};
use expull_walk::{Block, Lists};
use limits::Refusal;
use shared_arena_hashmap::Met;
use store_state::{Name, State};

fn on_met(met: Met) -> Lookup
    ensures { result ≡ on_met met }
{
    match met {
        Met::Empty => Lookup::Missing,
        Met::Standing(at) => Lookup::At(at),
        Met::Damaged => Lookup::Failed(4),
        Met::Lap => Lookup::Missing,
    }
}

// The place of a name's record, or absent; the empty name is absent, and isn't looked up.
pub fn lookup(st: State, table: &[u32], keys: &[u8], lists: &[u8], name: &[u8]) -> ToldLookup
    ensures settled { result.answer
        ≡ lookup_of st (lent table.now keys.now lists.now) name.now }
    ensures numbered { permitted looking_up (said_lookup result.answer) ≡ true }
    ensures walked { result.walk
        ≡ looked_of st (lent table.now keys.now lists.now) name.now }
{
    if !store_state::is_whole_state(st, table.len(), keys.len(), lists.len()) {
        return ToldLookup {
            answer: Lookup::Failed(2),
            walk: 0,
        };
    }
    let kind = store_state::name_kind(st, name.len());
    match kind {
        Name::TooLong => ToldLookup {
            answer: Lookup::Failed(3),
            walk: 0,
        },
        Name::Nameless => ToldLookup {
            answer: Lookup::Missing,
            walk: 0,
        },
        Name::Proper => {
            let w = crate::walk(st, table, keys, lists, name);
            let met = w.met;
            ToldLookup {
                answer: on_met(met),
                walk: w.looked,
            }
        }
    }
}

// The answer to a lookup that found no record.
fn not_found(found: Lookup) -> Answer
    ensures { result ≡ not_found found }
{
    match found {
        Lookup::At(_) => Answer::Absent,
        Lookup::Missing => Answer::Absent,
        Lookup::Failed(n) => Answer::Refused(n, 0),
    }
}

// A standing lane's length.
fn length_at(keys: &[u8], at: u32) -> Answer
    requires { (at + 2 ≤ length keys.now) × (value_place keys.now at + 16 ≤ length keys.now) }
    ensures { result ≡ length_at keys.now at }
{
    let Some(h) = records::get_head(keys, at) else {
        return Answer::Refused(4, 0);
    };
    Answer::Found(Outcome::Length(expull_header::lane_length(h)))
}

// A lane's length.
pub fn length(st: State, table: &[u32], keys: &[u8], lists: &[u8], name: &[u8]) -> ToldAnswer
    ensures settled { result.answer
        ≡ length_of st (lent table.now keys.now lists.now) name.now }
    ensures numbered { permitted measuring (said_answer result.answer) ≡ true }
    ensures walked { result.walk
        ≡ looked_of st (lent table.now keys.now lists.now) name.now }
{
    let looked = lookup(st, table, keys, lists, name);
    let walk = looked.walk;
    let found = looked.answer;
    let Lookup::At(at) = found else {
        return ToldAnswer {
            answer: not_found(found),
            walk,
        };
    };
    ToldAnswer {
        answer: length_at(keys, at),
        walk,
    }
}

// The same of a name that a lane can have, in a store whose state is whole. The lookup's steps stand here once more:
// called, they would take a state through memory and hand their answer back through it, which costs more than they do.
fn length_proper(st: State, table: &[u32], keys: &[u8], lists: &[u8], name: &[u8]) -> Answer
    requires { (checked st (lent table.now keys.now lists.now) ≡ true)
        × (name_kind st (length name.now) ≡ Name.Proper) }
    ensures { result
        ≡ length_of st (lent table.now keys.now lists.now) name.now }
{
    let arena = st.key_arena;
    let first = store_state::first_bucket(st);
    let hash = murmurhash2::murmurhash2(name, st.seed);
    let w = shared_arena_hashmap::find(table, keys, arena, first, st.buckets, hash, name);
    let met = w.met;
    let found = on_met(met);
    let Lookup::At(at) = found else {
        return not_found(found);
    };
    length_at(keys, at)
}

// A lane's length without the walk beside it, for a caller that asks often and doesn't tell the walk.
pub fn length_alone(st: State, table: &[u32], keys: &[u8], lists: &[u8], name: &[u8]) -> Answer
    ensures settled { result
        ≡ length_of st (lent table.now keys.now lists.now) name.now }
    ensures numbered { permitted measuring (said_answer result) ≡ true }
{
    if !store_state::is_whole_state(st, table.len(), keys.len(), lists.len()) {
        return Answer::Refused(2, 0);
    }
    let kind = store_state::name_kind(st, name.len());
    match kind {
        Name::TooLong => Answer::Refused(3, 0),
        Name::Nameless => Answer::Absent,
        Name::Proper => length_proper(st, table, keys, lists, name),
    }
}

// A standing lane's reading, through its own record. All blocks are met before the output's length matters, and that
// before a byte is written. Public for what goes over all lanes by listing: its record is known, and looking its name
// up again might find another.
pub fn read_at(
    st: State,
    table: &[u32],
    keys: &[u8],
    lists: &[u8],
    at: u32,
    output: &mut [u8],
) -> Answer
    requires { (sensible st.list_arena (length lists.now) ≡ true)
        × ((at + 2 ≤ length keys.now) × (value_place keys.now at + 16 ≤ length keys.now)) }
    ensures { reading result output.new
        ≡ read_at st (lent table.now keys.now lists.now) at output.old }
{
    let Some(h) = records::get_head(keys, at) else {
        return Answer::Refused(4, 0);
    };
    let pages = Lists {
        bytes: lists,
        arena: st.list_arena,
    };
    if !pages.are_good_blocks(h.head, h.number - 2) {
        return Answer::Refused(4, 0);
    }
    let n = expull_header::lane_length(h);
    if (output.len() as u64) < n {
        return Answer::Refused(8, n);
    }
    pages.read_to_end(h, output);
    Answer::Found(Outcome::Reading(n))
}

// A lane's bytes to the front of the output.
pub fn read(
    st: State,
    table: &[u32],
    keys: &[u8],
    lists: &[u8],
    name: &[u8],
    output: &mut [u8],
) -> ToldAnswer
    ensures settled { reading result.answer output.new
        ≡ read_of st (lent table.now keys.now lists.now) name.now
        output.old }
    ensures numbered { permitted reading_lane (said_answer result.answer) ≡ true }
    ensures walked { result.walk
        ≡ looked_of st (lent table.now keys.now lists.now) name.now }
{
    let looked = lookup(st, table, keys, lists, name);
    let walk = looked.walk;
    let found = looked.answer;
    let Lookup::At(at) = found else {
        return ToldAnswer {
            answer: not_found(found),
            walk,
        };
    };
    ToldAnswer {
        answer: read_at(st, table, keys, lists, at, output),
        walk,
    }
}

fn on_block(found: Result<Option<Block>, Refusal>) -> Answer
    ensures { result ≡ on_block found }
{
    match found {
        Ok(Some(b)) => Answer::Found(Outcome::Block(b.at, b.length as u64)),
        Ok(None) => Answer::Found(Outcome::NoSuchBlock),
        Err(refusal) => Answer::Refused(refusal.number(), 0),
    }
}

fn block_at(st: State, table: &[u32], keys: &[u8], lists: &[u8], at: u32, index: usize) -> Answer
    requires { (sensible st.list_arena (length lists.now) ≡ true)
        × ((at + 2 ≤ length keys.now) × (value_place keys.now at + 16 ≤ length keys.now)) }
    ensures { result ≡ block_at st (lent table.now keys.now lists.now) index at }
{
    let Some(h) = records::get_head(keys, at) else {
        return Answer::Refused(4, 0);
    };
    let pages = Lists {
        bytes: lists,
        arena: st.list_arena,
    };
    on_block(pages.find_block(h, index))
}

// The place and length of block `index` of a lane, from 0.
pub fn find_block(
    st: State,
    table: &[u32],
    keys: &[u8],
    lists: &[u8],
    name: &[u8],
    index: usize,
) -> ToldAnswer
    ensures settled { result.answer
        ≡ find_block_of st (lent table.now keys.now lists.now)
        name.now index }
    ensures numbered { permitted finding_block (said_answer result.answer) ≡ true }
    ensures walked { result.walk
        ≡ looked_of st (lent table.now keys.now lists.now) name.now }
{
    let looked = lookup(st, table, keys, lists, name);
    let walk = looked.walk;
    let found = looked.answer;
    let Lookup::At(at) = found else {
        return ToldAnswer {
            answer: not_found(found),
            walk,
        };
    };
    ToldAnswer {
        answer: block_at(st, table, keys, lists, at, index),
        walk,
    }
}

// A good span of the list pages, shown as a part of them; the empty part otherwise.
pub fn show_block<'a>(
    st: State,
    table: &[u32],
    keys: &[u8],
    lists: &'a [u8],
    at: u32,
    n: usize,
) -> &'a [u8]
    ensures { result.now ≡ show_of st (lent table.now keys.now lists.now) at n }
{
    let arena = st.list_arena;
    if !store_state::is_whole_state(st, table.len(), keys.len(), lists.len()) {
        return &lists[0..0];
    }
    if !arena.is_good_span(at, n) {
        return &lists[0..0];
    }
    let from = at as usize;
    let to = from + n;
    &lists[from..to]
}
