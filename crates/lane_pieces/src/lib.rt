// A lane read in pieces (document 02, Six).
//
// It promises, for any state, any lent memory, any count and any output: 2, 3, absent, 4 for the record or the header,
// 2 for a count above the lane's length, 4 for a block that it meets, 8 with the lane's length for an output without a
// place, and nothing is written; else as many of the bytes behind the count as there are places, or as are left, at the
// output's front and no byte behind them. specs/Piece.antt is that. Only the blocks up to the last that it gives bytes
// of are met, and all of these before a byte is written. It uses store_state, store_create, store_look, store_append,
// expull_header, expull_walk, memory_arena, fastcpy and spans.
#![tactic(auto)]

ghost use Rattle.std.specs.Prelude.{◌≡◌, true, ◌+◌, ◌-◌, ◌≤◌, ◌<◌, min, length};
ghost use Rattle.limits.specs.Limits.{number_limit};
ghost use Rattle.limits.specs.Refusals.{reading_piece, permitted};
ghost use Rattle.spans.specs.Span.{read_span, overwrite};
ghost use Rattle.records.specs.Record.{value_place};
ghost use Rattle.expull_header.specs.Header.{full_bytes};
ghost use Rattle.store_look.specs.Look.{lent, looked_of};
ghost use Rattle.lane_pieces.specs.Piece.{block_holding, not_found, out, piece_at, piece_of};
ghost use Rattle.lane_pieces.specs.Onward.{good_on, bytes_on, last_on, Copyable, went, gone_on, Going, Within, Put};
ghost use Rattle.lane_pieces.specs.Said.{said_pieced};

use expull_header::Header;
use expull_walk::Lists;
use store_look::Lookup;
use store_state::State;

// A piece's answer: absent; how many bytes it gave; or a refusal's number and what it tells.
#[derive(Clone, Copy)]
pub enum Pieced {
    Absent,
    Given(u64),
    Refused(u32, u64),
}

// A piece's answer, and how many buckets its lookup looked at, as the store tells it.
#[derive(Clone, Copy)]
pub struct ToldPiece {
    pub answer: Pieced,
    pub walk: usize,
}

// ---- blocks by their index

// What the first k blocks of a lane hold. They double up to the twelfth and are of one size behind it.
pub fn full_bytes(k: u32) -> u64
    requires { k ≤ number_limit }
    ensures { result ≡ full_bytes k }
{
    if k <= 12 {
        return expull_header::get_block_size(k + 3) as u64 - 8;
    }
    32760 + (k as u64 - 12) * 32768
}

// The block in which byte g of a lane lies, both counted from 0.
pub fn block_holding(g: u64) -> u32
    requires { g ≤ 4587094008 }
    ensures { result ≡ block_holding g }
{
    if 32760 <= g {
        let above = (g - 32760) / 32768;
        return 12 + above as u32;
    }
    let mut i = 0;
    let mut held: u64 = 8;
    // to the first block that reaches far enough; a `for` would have an end that is never reached
    while held <= g {
        i += 1;
        held = 2 * held + 8;
    }
    i
}

// ---- blocks on from one of them

// Whether the blocks from `first` on, which lies at a place, and before `end` are good spans with their links.
fn are_good_on(lists: &Lists, first: u32, end: u32, place: u32) -> bool
    requires { end ≤ number_limit }
    ensures { result ≡ good_on lists.now.arena lists.now.bytes.now first place (end - first) }
{
    let mut b = place;
    for i in first..end {
        let size = expull_header::get_block_size(i + 3) as usize;
        if !lists.arena.is_good_span(b, size + limits::LINK) {
            return false;
        }
        b = spans::get_u32(lists.bytes, b as usize + size);
    }
    true
}

// Copies n bytes behind the first `skip` ones of block `first`, which lies at a place, to the front of the output. They
// end before block `end`. Answers where the last block lies that it came to.
fn copy_on(
    lists: &[u8],
    first: u32,
    end: u32,
    place: u32,
    skip: usize,
    n: usize,
    output: &mut [u8],
) -> u32
    requires { Copyable lists.now first end place skip n (length output.old) }
    ensures { (result ≡ last_on lists.now first place place (end - first))
        × (output.new ≡ overwrite 0 (read_span skip n (bytes_on lists.now first place (end - first)))
        output.old) }
{
    let mut b = place;
    let mut last = place;
    let mut from = skip;
    let mut at = 0;
    for i in first..end {
        let size = expull_header::get_block_size(i + 3) as usize;
        let k = (size - from).min(n - at);
        let start = b as usize;
        let s = start + from;
        let e = s + k;
        fastcpy::copy_in(output, at, &lists[s..e]);
        last = b;
        b = spans::get_u32(lists, start + size);
        from = 0;
        at += k;
    }
    last
}

// N bytes behind those given so far, to the front of the output, from block `first` on, which lies at a place: the
// blocks up to the last of these bytes are met, then the bytes copied. Answers where that last block lies; none where one
// on the way isn't a good span.
pub fn go_on(
    lists: &Lists,
    first: u32,
    place: u32,
    given: u64,
    n: usize,
    output: &mut [u8],
) -> Option<u32>
    requires { Going first given n (length output.old) }
    ensures { went result output.new
        ≡ gone_on lists.now.arena lists.now.bytes.now first place given n output.old }
{
    let last = given + n as u64 - 1;
    let end = block_holding(last) + 1;
    if !are_good_on(lists, first, end, place) {
        return None;
    }
    let before = full_bytes(first);
    let skip = (given - before) as usize;
    Some(copy_on(lists.bytes, first, end, place, skip, n, output))
}

// ---- a piece

// From the lane's head: the block in which the bytes begin is found, and from there it goes on. Whether all blocks on
// the way were good spans.
fn put_piece(lists: &Lists, h: Header, given: u64, n: usize, output: &mut [u8]) -> bool
    requires { Within h given n (length output.old) }
    ensures { Put lists.now.arena lists.now.bytes.now h given n output.old result output.new }
{
    let first = block_holding(given);
    let Some(place) = lists.find_place(h.head, first) else {
        return false;
    };
    go_on(lists, first, place, given, n, output).is_some()
}

// A piece of a standing lane, whose record is at a place.
fn piece_at(lists: &Lists, keys: &[u8], at: u32, given: u64, output: &mut [u8]) -> Pieced
    requires { (at + 2 ≤ length keys.now) × (value_place keys.now at + 16 ≤ length keys.now) }
    ensures { out result output.new
        ≡ piece_at lists.now.arena keys.now lists.now.bytes.now given at output.old }
{
    let Some(h) = records::get_head(keys, at) else {
        return Pieced::Refused(4, 0);
    };
    let length = expull_header::lane_length(h);
    let is_above = length < given;
    if is_above {
        return Pieced::Refused(2, 0);
    }
    let room = output.len() as u64;
    if room == 0 {
        return Pieced::Refused(8, length);
    }
    let n = room.min(length - given);
    if n == 0 {
        return Pieced::Given(0);
    }
    if !put_piece(lists, h, given, n as usize, output) {
        return Pieced::Refused(4, 0);
    }
    Pieced::Given(n)
}

// The answer to a lookup that found no record.
pub fn not_found(found: Lookup) -> Pieced
    ensures { result ≡ not_found found }
{
    match found {
        Lookup::At(_) => Pieced::Absent,
        Lookup::Missing => Pieced::Absent,
        Lookup::Failed(n) => Pieced::Refused(n, 0),
    }
}

// A lane's bytes behind those given so far, as many as the output has places or as are left, to its front.
pub fn piece(
    st: State,
    table: &[u32],
    keys: &[u8],
    lists: &[u8],
    name: &[u8],
    given: u64,
    output: &mut [u8],
) -> ToldPiece
    ensures settled { out result.answer output.new
        ≡ piece_of st (lent table.now keys.now lists.now) name.now given
        output.old }
    ensures numbered { permitted reading_piece (said_pieced result.answer) ≡ true }
    ensures walked { result.walk
        ≡ looked_of st (lent table.now keys.now lists.now) name.now }
{
    let looked = store_look::lane::lookup(st, table, keys, lists, name);
    let walk = looked.walk;
    let found = looked.answer;
    let Lookup::At(at) = found else {
        return ToldPiece {
            answer: not_found(found),
            walk,
        };
    };
    let pages = Lists {
        bytes: lists,
        arena: st.list_arena,
    };
    ToldPiece {
        answer: piece_at(&pages, keys, at, given, output),
        walk,
    }
}
