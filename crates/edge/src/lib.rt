// The store's calls and the bare arena's in C's calling form, on numbers and areas: so that a C program can run them
// over more memory than any program here could hold, at the limits of document 02 (oracle/edge.c).
//
// It promises, for any numbers and any areas: what the proved calls below it answer and leave, written to a lent area
// of 64-bit words as specs/Told.antt says. The state goes in as numbers and comes out as words. It serves that run
// alone and is no interface for a controller. It uses spans, memory_arena, store_state, store_create, store_look and
// store_append.
#![tactic(auto)]

ghost use Rattle.std.specs.Prelude.{◌≡◌, cond, [], ◌∷◌, ◌≤◌, length};
ghost use Rattle.spans.specs.Span.{overwrite};
ghost use Rattle.memory_arena.specs.Calls.{allocate_of, out, read_of, write_of};
ghost use Rattle.store_create.specs.Create.{create_of};
ghost use Rattle.store_look.specs.Look.{lent, length_of};
ghost use Rattle.store_append.specs.Append.{append_of};
ghost use Rattle.edge.specs.Told.{state_of, fields_of, told_created, told_appended, length_in, told_answer};
ghost use Rattle.edge.specs.Told.{told_allocated, number_touched, create_told, append_told, read_told};

use limits::Refusal;
use memory_arena::{Arena, Room};
use store_append::Appended;
use store_look::{Answer, Outcome};
use store_state::State;

// ---- what is told

fn tell(told: &mut [u64], at: usize, v: u64)
    ensures { told.new ≡ overwrite at (v ∷ []) told.old }
{
    if told.len() <= at {
        return;
    }
    told[at] = v;
}

fn tell_four(told: &mut [u64], at: usize, a: u64, b: u64, c: u64, d: u64)
    requires { at ≤ 8 }
    ensures { told.new ≡ overwrite at (a ∷ b ∷ c ∷ d ∷ []) told.old }
{
    tell(told, at, a);
    tell(told, at + 1, b);
    tell(told, at + 2, c);
    tell(told, at + 3, d);
}

fn one_if(b: bool) -> u64
    ensures { result ≡ cond b 1 0 }
{
    if b {
        return 1;
    }
    0
}

fn tell_state(told: &mut [u64], number: u64, st: State)
    ensures { told.new ≡ overwrite 0 (fields_of number st) told.old }
{
    let keys = st.key_arena;
    let lists = st.list_arena;
    let back = one_if(st.back);
    tell_four(
        told,
        0,
        number,
        st.seed as u64,
        st.words as u64,
        st.key_bytes as u64,
    );
    tell_four(
        told,
        4,
        st.list_bytes as u64,
        st.buckets as u64,
        back,
        st.keys as u64,
    );
    tell_four(
        told,
        8,
        keys.page as u64,
        keys.used as u64,
        lists.page as u64,
        lists.used as u64,
    );
    tell(told, 12, keys.size as u64);
}

fn tell_created(told: &mut [u64], r: Result<State, Refusal>)
    ensures { told.new ≡ overwrite 0 (told_created r) told.old }
{
    match r {
        Ok(st) => tell_state(told, 0, st),
        Err(e) => tell_four(told, 0, e.number() as u64, 0, 0, 0),
    }
}

fn tell_appended(told: &mut [u64], r: Appended)
    ensures { told.new ≡ overwrite 0 (told_appended r) told.old }
{
    match r {
        Appended::Accepted(st) => tell_state(told, 0, st),
        Appended::Declined(st, n) => tell_state(told, n as u64, st),
    }
}

fn length_in(o: Outcome) -> u64
    ensures { result ≡ length_in o }
{
    match o {
        Outcome::Length(n) => n,
        Outcome::Reading(n) => n,
        Outcome::Block(_, n) => n,
        Outcome::NoSuchBlock => 0,
    }
}

fn tell_answer(told: &mut [u64], r: Answer)
    ensures { told.new ≡ overwrite 0 (told_answer r) told.old }
{
    match r {
        Answer::Absent => tell_four(told, 0, 100, 0, 0, 0),
        Answer::Found(o) => tell_four(told, 0, 0, length_in(o), 0, 0),
        Answer::Refused(n, t) => tell_four(told, 0, n as u64, t, 0, 0),
    }
}

fn tell_allocated(told: &mut [u64], r: Result<Option<Room>, Refusal>)
    ensures { told.new ≡ overwrite 0 (told_allocated r) told.old }
{
    match r {
        Ok(Some(room)) => {
            let Room { at, after } = room;
            tell_four(told, 0, 0, at as u64, after.page as u64, after.used as u64)
        }
        Ok(None) => tell_four(told, 0, 101, 0, 0, 0),
        Err(e) => tell_four(told, 0, e.number() as u64, 0, 0, 0),
    }
}

fn number_touched(r: Result<(), Refusal>) -> u64
    ensures { result ≡ number_touched r }
{
    match r {
        Ok(()) => 0,
        Err(e) => e.number() as u64,
    }
}

// A state from its numbers.
fn state_of(
    seed: u32,
    words: usize,
    key_bytes: usize,
    list_bytes: usize,
    buckets: usize,
    back: bool,
    count: usize,
    key_page: usize,
    key_used: usize,
    list_page: usize,
    list_used: usize,
    size: usize,
) -> State
    ensures { result ≡ state_of seed words key_bytes list_bytes buckets back count key_page key_used
        list_page list_used size }
{
    let key_arena = Arena {
        page: key_page,
        used: key_used,
        size,
    };
    let list_arena = Arena {
        page: list_page,
        used: list_used,
        size,
    };
    State {
        seed,
        words,
        key_bytes,
        list_bytes,
        buckets,
        back,
        keys: count,
        key_arena,
        list_arena,
    }
}

// ---- the store's calls

#[unsafe(no_mangle)]
pub extern "C" fn edge_create(
    capacity: usize,
    seed: u32,
    size: usize,
    table: &mut [u32],
    keys: &[u8],
    lists: &[u8],
    told: &mut [u64],
)
    ensures settled { (table.new, told.new)
        ≡ create_told (create_of capacity seed size table.old (length keys.now)
        (length lists.now)) told.old }
{
    let r = store_create::create(capacity, seed, size, table, keys, lists);
    tell_created(told, r);
}

#[unsafe(no_mangle)]
pub extern "C" fn edge_append(
    seed: u32,
    words: usize,
    key_bytes: usize,
    list_bytes: usize,
    buckets: usize,
    back: bool,
    count: usize,
    key_page: usize,
    key_used: usize,
    list_page: usize,
    list_used: usize,
    size: usize,
    table: &mut [u32],
    keys: &mut [u8],
    lists: &mut [u8],
    name: &[u8],
    bytes: &[u8],
    told: &mut [u64],
)
    ensures settled { (lent table.new keys.new lists.new, told.new)
        ≡ append_told (append_of (state_of seed words key_bytes list_bytes buckets back count key_page key_used
        list_page list_used size) (lent table.old keys.old lists.old)
        name.now bytes.now) told.old }
{
    let st = state_of(
        seed, words, key_bytes, list_bytes, buckets, back, count, key_page, key_used, list_page,
        list_used, size,
    );
    let r = store_append::append(st, table, keys, lists, name, bytes);
    let answer = r.answer;
    tell_appended(told, answer);
}

#[unsafe(no_mangle)]
pub extern "C" fn edge_length(
    seed: u32,
    words: usize,
    key_bytes: usize,
    list_bytes: usize,
    buckets: usize,
    back: bool,
    count: usize,
    key_page: usize,
    key_used: usize,
    list_page: usize,
    list_used: usize,
    size: usize,
    table: &[u32],
    keys: &[u8],
    lists: &[u8],
    name: &[u8],
    told: &mut [u64],
)
    ensures settled { told.new
        ≡ overwrite 0 (told_answer (length_of (state_of seed words key_bytes list_bytes buckets back count key_page
        key_used list_page list_used size) (lent table.now keys.now lists.now)
        name.now)) told.old }
{
    let st = state_of(
        seed, words, key_bytes, list_bytes, buckets, back, count, key_page, key_used, list_page,
        list_used, size,
    );
    let r = store_look::lane::length(st, table, keys, lists, name);
    let answer = r.answer;
    tell_answer(told, answer);
}

#[unsafe(no_mangle)]
pub extern "C" fn edge_read(
    seed: u32,
    words: usize,
    key_bytes: usize,
    list_bytes: usize,
    buckets: usize,
    back: bool,
    count: usize,
    key_page: usize,
    key_used: usize,
    list_page: usize,
    list_used: usize,
    size: usize,
    table: &[u32],
    keys: &[u8],
    lists: &[u8],
    name: &[u8],
    output: &mut [u8],
    told: &mut [u64],
)
    ensures settled { (output.new, told.new)
        ≡ read_told (Rattle.store_look.specs.Look.read_of (state_of seed words key_bytes list_bytes buckets back count
        key_page key_used list_page list_used size)
        (lent table.now keys.now lists.now) name.now
        output.old) told.old }
{
    let st = state_of(
        seed, words, key_bytes, list_bytes, buckets, back, count, key_page, key_used, list_page,
        list_used, size,
    );
    let r = store_look::lane::read(st, table, keys, lists, name, output);
    let answer = r.answer;
    tell_answer(told, answer);
}

// ---- the bare arena's

#[unsafe(no_mangle)]
pub extern "C" fn edge_allocate(
    page: usize,
    used: usize,
    size: usize,
    len: usize,
    n: usize,
    told: &mut [u64],
)
    ensures settled { told.new
        ≡ overwrite 0 (told_allocated (allocate_of (record { page = page; used = used; size = size }) len n))
        told.old }
{
    let r = Arena { page, used, size }.allocate_space(len, n);
    tell_allocated(told, r);
}

#[unsafe(no_mangle)]
pub extern "C" fn edge_get(
    page: usize,
    used: usize,
    size: usize,
    pages: &[u8],
    at: u32,
    output: &mut [u8],
) -> u64
    ensures number { result
        ≡ number_touched (read_of (record { page = page; used = used; size = size }) pages.now at
        output.old).answer }
    ensures bytes { output.new
        ≡ (read_of (record { page = page; used = used; size = size }) pages.now at
        output.old).memory }
{
    let r = Arena { page, used, size }.read(pages, at, output);
    number_touched(r)
}

#[unsafe(no_mangle)]
pub extern "C" fn edge_put(
    page: usize,
    used: usize,
    size: usize,
    pages: &mut [u8],
    at: u32,
    bytes: &[u8],
) -> u64
    ensures number { result
        ≡ number_touched (write_of (record { page = page; used = used; size = size }) pages.old at
        bytes.now).answer }
    ensures memory { pages.new
        ≡ (write_of (record { page = page; used = used; size = size }) pages.old at
        bytes.now).memory }
{
    let r = Arena { page, used, size }.write_at(pages, at, bytes);
    number_touched(r)
}
