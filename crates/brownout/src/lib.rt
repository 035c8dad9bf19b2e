// The brownout check (document 02, Eight): goes over the lent table and both arenas of a store and says sound, or names
// the first faulty bucket and its first fault.
//
// It promises, for any state, any lent memory and any mark area, the answer and the mark area that crate
// brownout_faults defines (`check_of`); it writes nothing else. Where that definition asks for a name in all earlier
// buckets and for an overlap with everything met earlier, the code makes one lookup a bucket and sets a bit for each
// byte met; specs/Code.antt says so, and proofs/ that both are one. A chain is walked by its count, so one that comes
// back to itself ends too. It uses brownout_faults, marks and the store's inner calls.
#![tactic(auto)]

ghost use Rattle.std.specs.Prelude.{◌≡◌, true, ◌+◌, ◌*◌, ◌^◌, ◌≤◌, ◌<◌, length};
ghost use Rattle.limits.specs.Limits.{number_limit};
ghost use Rattle.limits.specs.Refusals.{checking, permitted};
ghost use Rattle.marks.specs.Bits.{out as marks_out};
ghost use Rattle.memory_arena.specs.Calls.{sensible};
ghost use Rattle.expull_header.specs.Header.{sound_header, block_count};
ghost use Rattle.expull_walk.specs.Blocks.{good_blocks};
ghost use Rattle.store_look.specs.Look.{lent, checked};
ghost use Rattle.brownout_faults.specs.Check.{found_met, tail_good, out, check_of};
ghost use Rattle.brownout_faults.specs.Said.{said_checked};
ghost use Rattle.brownout.specs.Code.{bucket_of, list_judged, judged, mark_blocks, step, lane_marked, Markable};
ghost use Rattle.brownout.specs.Code.{looked_over, counted_on, gone_over};

use brownout_faults::Checked;
use expull_header::Header;
use expull_walk::Lists;
use shared_arena_hashmap::Met;
use store_state::State;

// Whether a walk found its name of n bytes; a name of no bytes is absent.
fn is_found(met: Met, n: usize) -> bool
    ensures { result ≡ found_met n met }
{
    match met {
        Met::Empty => false,
        Met::Standing(_) => 0 < n,
        Met::Damaged => false,
        Met::Lap => false,
    }
}

// The bucket in which probing finds a name; the number of buckets where it doesn't.
fn find_bucket(st: State, table: &[u32], keys: &[u8], lists: &[u8], name: &[u8]) -> usize
    requires { checked st (lent table.now keys.now lists.now) ≡ true }
    ensures { result
        ≡ bucket_of st (lent table.now keys.now lists.now) name.now }
{
    let buckets = st.buckets;
    let w = store_look::walk(st, table, keys, lists, name);
    let met = w.met;
    if !is_found(met, name.len()) {
        return buckets;
    }
    let hash = murmurhash2::murmurhash2(name, st.seed);
    ((hash as usize) + w.looked) % buckets
}

// Whether a list's tail is where its last block's filled bytes end.
fn is_tail_good(table: &[u32], keys: &[u8], lists: &Lists, h: Header) -> bool
    requires { (sound_header h 0 ≡ true)
        × (good_blocks lists.now.arena lists.now.bytes.now h.head (block_count h) ≡ true) }
    ensures { result ≡ tail_good (lent table.now keys.now lists.now.bytes.now) h }
{
    if h.number == 2 {
        return true;
    }
    let last = (h.number - 3) as usize;
    // all its blocks are good, so the last one is found
    let block = lists.find_block(h, last).unwrap().unwrap();
    let end = (block.at as u64) + (block.length as u64);
    (h.tail as u64) == end
}

// The first fault of a list: a block that isn't good, a wrong tail, or none.
fn judge_list(st: State, table: &[u32], keys: &[u8], lists: &[u8], h: Header) -> u32
    requires { (sensible st.list_arena (length lists.now) ≡ true) × (sound_header h 0 ≡ true) }
    ensures { result ≡ list_judged st (lent table.now keys.now lists.now) h }
{
    let pages = Lists {
        bytes: lists,
        arena: st.list_arena,
    };
    if !pages.are_good_blocks(h.head, h.number - 2) {
        return 5;
    }
    if is_tail_good(table, keys, &pages, h) {
        return 0;
    }
    6
}

// The first fault but for the overlap of bucket i, whose record is at a place.
fn judge(st: State, table: &[u32], keys: &[u8], lists: &[u8], i: usize, at: u32) -> u32
    requires { checked st (lent table.now keys.now lists.now) ≡ true }
    ensures { result ≡ judged st (lent table.now keys.now lists.now) i at }
{
    let arena = st.key_arena;
    if !records::is_good_record(keys, arena, at) {
        return 1;
    }
    let n = records::key_length(keys, at);
    let from = (at as usize) + 2;
    let to = from + n;
    let name = &keys[from..to];
    let b = find_bucket(st, table, keys, lists, name);
    if b < i {
        return 2;
    }
    if b != i {
        return 3;
    }
    let Some(h) = records::get_head(keys, at) else {
        return 4;
    };
    judge_list(st, table, keys, lists, h)
}

// Marks a list's blocks, bytes and link, up to a place that was marked already; whether there was one.
fn mark_blocks(lists: &Lists, marks: &mut [u8], base: usize, head: u32, count: u32) -> bool
    requires { (good_blocks lists.now.arena lists.now.bytes.now head count ≡ true)
        × ((count ≤ number_limit) × ((base + length lists.now.bytes.now ≤ 8 * length marks.old)
        × (base + length lists.now.bytes.now < 2 ^ 64))) }
    ensures { marks_out result marks.new
        ≡ mark_blocks marks.old base lists.now.bytes.now head count 0 }
{
    let mut place = head;
    for k in 0..count {
        let size = expull_header::get_block_size(k + 3) as usize;
        let at = place as usize;
        let met = marks::mark_span(marks, base + at, size + 4);
        if met {
            return true;
        }
        place = spans::get_u32(lists.bytes, at + size);
    }
    false
}

// Marks a record and its list's blocks: 7 where a place was marked already.
fn mark_lane(table: &[u32], keys: &[u8], lists: &Lists, marks: &mut [u8], at: u32, h: Header) -> u32
    requires { Markable (lent table.now keys.now lists.now.bytes.now) lists.now.arena at h (length marks.old) }
    ensures { step result marks.new
        ≡ lane_marked (lent table.now keys.now lists.now.bytes.now) at h marks.old }
{
    let n = records::key_length(keys, at);
    let from = at as usize;
    let met = marks::mark_span(marks, from, n + limits::RECORD_EXTRA);
    if met {
        return 7;
    }
    let base = keys.len();
    let again = mark_blocks(lists, marks, base, h.head, h.number - 2);
    if again {
        return 7;
    }
    0
}

// Looks over bucket i: its first fault, or none and its record and blocks are marked.
fn look_over(st: State, table: &[u32], keys: &[u8], lists: &[u8], marks: &mut [u8], i: usize) -> u32
    requires { (checked st (lent table.now keys.now lists.now) ≡ true)
        × ((i < st.buckets) × (length keys.now + length lists.now ≤ 8 * length marks.old)) }
    ensures { step result marks.new
        ≡ looked_over st (lent table.now keys.now lists.now) i marks.old }
{
    let first = store_state::first_bucket(st);
    let w = 2 * (first + i);
    let at = table[w];
    if at == limits::NULL {
        return 0;
    }
    let fault = judge(st, table, keys, lists, i, at);
    if fault != 0 {
        return fault;
    }
    let Some(h) = records::get_head(keys, at) else {
        return 4;
    };
    let pages = Lists {
        bytes: lists,
        arena: st.list_arena,
    };
    mark_lane(table, keys, &pages, marks, at, h)
}

// One more where bucket i holds a record.
fn count_on(st: State, table: &[u32], keys: &[u8], lists: &[u8], i: usize, count: usize) -> usize
    requires { (checked st (lent table.now keys.now lists.now) ≡ true) × ((i < st.buckets) × (count ≤ i)) }
    ensures { (result ≡ counted_on st (lent table.now keys.now lists.now) i count)
        × (result ≤ i + 1) }
{
    let first = store_state::first_bucket(st);
    let w = 2 * (first + i);
    let at = table[w];
    if at == limits::NULL {
        return count;
    }
    count + 1
}

// Goes over all buckets; the mark area is clear before.
fn go_over(st: State, table: &[u32], keys: &[u8], lists: &[u8], marks: &mut [u8]) -> Checked
    requires { (checked st (lent table.now keys.now lists.now) ≡ true)
        × (length keys.now + length lists.now ≤ 8 * length marks.old) }
    ensures { out result marks.new
        ≡ gone_over st (lent table.now keys.now lists.now) st.buckets 0 0
        marks.old }
{
    let mut count = 0;
    for i in 0..st.buckets {
        let fault = look_over(st, table, keys, lists, marks, i);
        if fault != 0 {
            return Checked::Faulty(i, fault);
        }
        count = count_on(st, table, keys, lists, i, count);
    }
    if st.keys == count {
        return Checked::Sound;
    }
    Checked::Miscounted
}

// The brownout check, with a lent mark area of one bit for each arena byte, both arenas together.
pub fn check(st: State, table: &[u32], keys: &[u8], lists: &[u8], marks: &mut [u8]) -> Checked
    ensures settled { out result marks.new
        ≡ check_of st (lent table.now keys.now lists.now) marks.old }
    ensures numbered { permitted checking (said_checked result) ≡ true }
{
    if !store_state::is_whole_state(st, table.len(), keys.len(), lists.len()) {
        return Checked::Refused(2, 0);
    }
    let needed = (keys.len() + lists.len() + 7) / 8;
    if marks.len() < needed {
        return Checked::Refused(8, needed as u64);
    }
    marks::clear(marks);
    let answer = go_over(st, table, keys, lists, marks);
    marks::clear(marks);
    answer
}
