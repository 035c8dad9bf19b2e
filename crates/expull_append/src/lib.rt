// An append to a block list: the dry run, which decides whether its blocks fit, and the append itself.
//
// It promises, on any memory: an append writes what document 01 says, byte for byte, once the dry run has shown that
// its blocks fit; no byte outside a good span is written. Its functions are inner ones: the store has made the
// whole-state check before it calls. It uses limits, numbers, spans, fastcpy, memory_arena and expull_header.
#![tactic(auto)]

ghost use Rattle.std.specs.Prelude.{◌≡◌, true, ◌+◌, ◌-◌, ◌*◌, ◌≤◌, ◌<◌, length};
ghost use Rattle.std.proofs.Math.Option.{some};
ghost use Rattle.limits.specs.Limits.{page_taken, arena_limit, fresh_number, number_limit, link_size};
ghost use Rattle.memory_arena.specs.Calls.{sensible};
ghost use Rattle.expull_header.specs.Header.{sound_header};
ghost use Rattle.expull_append.specs.Append.{writing, head_with, linked, ready, filled, appended, plan_of, is_some};
ghost use Rattle.expull_append.specs.Append.{good_tail};

use expull_header::Header;
use memory_arena::Arena;

// A list's header and its arena's state after an append.
#[derive(Clone, Copy)]
pub struct Extended {
    pub header: Header,
    pub arena: Arena,
}

// Whether a list's tail, with what remains and the link, is a good span; a list without blocks has none.
pub fn is_good_tail(arena: Arena, h: Header) -> bool
    requires { page_taken arena.size ≡ true }
    ensures { result ≡ good_tail arena h }
{
    h.number == limits::FIRST_BLOCK_NUM
        || arena.is_good_span(h.tail, h.remaining as usize + limits::LINK)
}

// The dry run: whether the blocks that an append of n bytes needs all fit.
pub fn blocks_fit(arena: Arena, len: usize, h: Header, n: usize) -> bool
    requires { (sensible arena len ≡ true) × (h.number ≤ number_limit) }
    ensures { result ≡ is_some (plan_of len arena h n) }
{
    let mut left = n.saturating_sub(h.remaining as usize);
    let mut number = h.number;
    let mut state = arena;
    // blocks grow, so how many it takes is known when they are counted
    while 0 < left {
        number += 1;
        let size = expull_header::get_block_size(number) as usize;
        let Some(room) = state.find_room(len, size + limits::LINK) else {
            return false;
        };
        state = room.after;
        left = left.saturating_sub(size);
    }
    true
}

// A new block's address goes to the link at the old tail; a list without blocks gets it as its head. The head is given
// back.
fn put_link(lists: &mut [u8], h: Header, at: u32) -> u32
    requires { (h.number ≡ fresh_number → ⊥) → h.tail + link_size ≤ length lists.old }
    ensures { (result ≡ head_with at h) × (lists.new ≡ linked at h lists.old) }
{
    if h.number == limits::FIRST_BLOCK_NUM {
        return at;
    }
    spans::put_u32(lists, h.tail as usize, at);
    h.head
}

// Takes a block where nothing remains of the last. The plan has room for it.
fn ensure_capacity(lists: &mut [u8], w: Extended) -> Extended
    requires { (sensible w.arena (length lists.old) ≡ true)
        × ((good_tail w.arena w.header ≡ true)
        × ((2 * w.header.number ≤ 2 * number_limit + arena_limit)
        × (is_some (plan_of (length lists.old) w.arena w.header 1) ≡ true))) }
    ensures { some (writing lists.new result.arena result.header)
        ≡ ready (writing lists.old w.arena w.header) }
{
    let h = w.header;
    if h.remaining != 0 {
        return w;
    }
    let number = h.number + 1;
    let size = expull_header::get_block_size(number);
    let wide = size as usize + limits::LINK;
    let room = w.arena.find_room(lists.len(), wide).unwrap();
    let head = put_link(lists, h, room.at);
    Extended {
        header: Header {
            number,
            head,
            tail: room.at,
            remaining: size,
        },
        arena: room.after,
    }
}

// Writes bytes that fit the last block.
pub fn put_chunk(lists: &mut [u8], w: Extended, bytes: &[u8]) -> Extended
    requires { (length bytes.now ≤ w.header.remaining)
        × ((w.header.tail + length bytes.now ≤ length lists.old) × (length lists.old ≤ arena_limit)) }
    ensures { writing lists.new result.arena result.header
        ≡ filled bytes.now (writing lists.old w.arena w.header) }
{
    let h = w.header;
    fastcpy::copy_in(lists, h.tail as usize, bytes);
    let n = bytes.len() as u32;
    Extended {
        header: Header {
            tail: memory_arena::offset(h.tail, n),
            remaining: h.remaining - n,
            ..h
        },
        ..w
    }
}

// The append, after the dry run.
pub fn extend_from_slice(lists: &mut [u8], arena: Arena, h: Header, bytes: &[u8]) -> Extended
    requires { (sensible arena (length lists.old) ≡ true)
        × ((sound_header h 0 ≡ true)
        × ((good_tail arena h ≡ true) × (is_some (plan_of (length lists.old) arena h (length bytes.now)) ≡ true))) }
    ensures { some (writing lists.new result.arena result.header)
        ≡ appended bytes.now (writing lists.old arena h) }
{
    let mut w = Extended { header: h, arena };
    let mut rest = bytes;
    // a chunk is what a block has left, so no `for` over chunks of one length
    while !rest.is_empty() {
        let v = ensure_capacity(lists, w);
        let n = rest.len().min(v.header.remaining as usize);
        let (chunk, after) = rest.split_at(n);
        w = put_chunk(lists, v, chunk);
        rest = after;
    }
    w
}
