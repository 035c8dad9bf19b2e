// A lane read on from a place that the last piece handed back (document 02, Six): no block before it is met again.
//
// It promises, for any state, any lent memory, any place and any output: what specs/PieceOn.antt says, by a piece's
// numbers; a place in whose block the bytes given so far can't end is 2. Where the place is the lane's own, it gives
// what a piece by its count gives, and hands back the lane's own again (specs/Promises.antt). It uses lane_pieces,
// store_state, store_create, store_look, store_append, expull_header, expull_walk and memory_arena.
#![tactic(auto)]

ghost use Rattle.std.specs.Prelude.{◌≡◌, true, ◌+◌, ◌≤◌, length};
ghost use Rattle.limits.specs.Refusals.{reading_piece, permitted};
ghost use Rattle.records.specs.Record.{value_place};
ghost use Rattle.store_look.specs.Look.{lent, looked_of};
ghost use Rattle.lane_pieces.specs.Said.{said_pieced};
ghost use Rattle.lane_pieces.specs.Onward.{Going};
ghost use Rattle.lane_places.specs.PieceOn.{beginning, fits_length, block_at, out_of, gone_from, piece_on_at};
ghost use Rattle.lane_places.specs.PieceOn.{piece_on_of};

use expull_header::Header;
use expull_walk::Lists;
use lane_pieces::Pieced;
use store_look::Lookup;
use store_state::State;

// Where the bytes given so far end: the index of their last block, the place where that block lies, and their count. Of
// the first block the place doesn't matter: the lane's header has it.
#[derive(Clone, Copy)]
pub struct Place {
    pub index: u32,
    pub block: u32,
    pub given: u64,
}

// A piece's answer, and the place to go on from: the old one, where no byte was given.
#[derive(Clone, Copy)]
pub struct Onward {
    pub answer: Pieced,
    pub place: Place,
}

// Both, and how many buckets the lookup looked at, as the store tells it.
#[derive(Clone, Copy)]
pub struct ToldOnward {
    pub onward: Onward,
    pub walk: usize,
}

// The place before a lane's first byte.
pub fn start() -> Place
    ensures { result ≡ beginning }
{
    Place {
        index: 0,
        block: 0,
        given: 0,
    }
}

// Whether the count isn't above a lane's length, and its bytes can end in the block of the place.
fn fits_length(p: Place, length: u64) -> bool
    requires { length ≤ 4587094008 }
    ensures { result ≡ fits_length p length }
{
    if length < p.given {
        return false;
    }
    if limits::NUMBER_LIMIT <= p.index {
        return false;
    }
    let before = lane_pieces::full_bytes(p.index);
    let behind = lane_pieces::full_bytes(p.index + 1);
    (before <= p.given) & (p.given <= behind)
}

// Where the block of a place lies.
fn block_at(h: Header, p: Place) -> u32
    ensures { result ≡ block_at h p }
{
    if p.index == 0 {
        return h.head;
    }
    p.block
}

// An answer that gave no byte: the place stays.
fn stays(answer: Pieced, p: Place) -> Onward
    ensures { (result.answer ≡ answer) × (result.place ≡ p) }
{
    Onward { answer, place: p }
}

// N bytes from a place on.
fn go_from(lists: &Lists, h: Header, p: Place, n: usize, output: &mut [u8]) -> Onward
    requires { Going p.index p.given n (length output.old) }
    ensures { out_of result output.new
        ≡ gone_from lists.now.arena lists.now.bytes.now h p n output.old }
{
    let first = p.index;
    let place = block_at(h, p);
    let Some(last) = lane_pieces::go_on(lists, first, place, p.given, n, output) else {
        return stays(Pieced::Refused(4, 0), p);
    };
    let given = p.given + n as u64;
    let index = lane_pieces::block_holding(given - 1);
    let next = Place {
        index,
        block: last,
        given,
    };
    stays(Pieced::Given(n as u64), next)
}

// A piece of a standing lane, whose record is at a place of the key pages, from a place on.
fn piece_on_at(lists: &Lists, keys: &[u8], at: u32, p: Place, output: &mut [u8]) -> Onward
    requires { (at + 2 ≤ length keys.now) × (value_place keys.now at + 16 ≤ length keys.now) }
    ensures { out_of result output.new
        ≡ piece_on_at lists.now.arena keys.now lists.now.bytes.now p at output.old }
{
    let Some(h) = records::get_head(keys, at) else {
        return stays(Pieced::Refused(4, 0), p);
    };
    let length = expull_header::lane_length(h);
    if !fits_length(p, length) {
        return stays(Pieced::Refused(2, 0), p);
    }
    let room = output.len() as u64;
    if room == 0 {
        return stays(Pieced::Refused(8, length), p);
    }
    let n = room.min(length - p.given);
    if n == 0 {
        return stays(Pieced::Given(0), p);
    }
    go_from(lists, h, p, n as usize, output)
}

// A lane's bytes from a place on, as many as the output holds or as are left, to its front; and where to go on from
// then.
pub fn piece_on(
    st: State,
    table: &[u32],
    keys: &[u8],
    lists: &[u8],
    name: &[u8],
    p: Place,
    output: &mut [u8],
) -> ToldOnward
    ensures settled { out_of result.onward output.new
        ≡ piece_on_of st (lent table.now keys.now lists.now) name.now p
        output.old }
    ensures numbered { permitted reading_piece (said_pieced result.onward.answer) ≡ true }
    ensures walked { result.walk
        ≡ looked_of st (lent table.now keys.now lists.now) name.now }
{
    let looked = store_look::lane::lookup(st, table, keys, lists, name);
    let walk = looked.walk;
    let found = looked.answer;
    let Lookup::At(at) = found else {
        return ToldOnward {
            onward: stays(lane_pieces::not_found(found), p),
            walk,
        };
    };
    let pages = Lists {
        bytes: lists,
        arena: st.list_arena,
    };
    ToldOnward {
        onward: piece_on_at(&pages, keys, at, p, output),
        walk,
    }
}
