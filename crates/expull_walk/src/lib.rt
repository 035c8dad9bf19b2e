// A walk along the blocks of a list, reading, and finding a block.
//
// It promises, on any memory: a reading walks exactly the header's count of blocks, so a chain that bites its own tail
// ends too; no byte outside a good span is read. Its functions are inner ones: the store has made the whole-state check
// before it calls. It uses limits, numbers, spans, fastcpy, memory_arena and expull_header.
#![tactic(auto)]

ghost use Rattle.std.specs.Prelude.{◌≡◌, true, ◌≤◌, ◌<◌, length};
ghost use Rattle.limits.specs.Limits.{number_limit};
ghost use Rattle.spans.specs.Span.{overwrite};
ghost use Rattle.memory_arena.specs.Calls.{sensible};
ghost use Rattle.expull_header.specs.Header.{sound_header, lane_length, block_count};
ghost use Rattle.expull_walk.specs.Blocks.{good_blocks, walk_of, lane_bytes, block_length, block_of};
ghost use Rattle.expull_walk.specs.Blocks.{place_of};

use expull_header::Header;
use limits::Refusal;
use memory_arena::Arena;

// A block's place, and its length as far as it is written.
#[derive(Clone, Copy)]
pub struct Block {
    pub at: u32,
    pub length: u32,
}

// The lent list pages, and an arena's state that is one of theirs.
#[derive(Clone, Copy)]
pub struct Lists<'a> {
    pub bytes: &'a [u8],
    pub arena: Arena,
    ghost fitting: { sensible arena (length bytes.now) ≡ true },
}

impl<'a> Lists<'a> {
    // Walks along n blocks: where the next one is; none where one on the way isn't a good span. It goes by the count
    // alone, so a chain that comes back to itself ends too.
    fn walk(&self, head: u32, n: u32) -> Option<u32>
        requires { n ≤ number_limit }
        ensures { result ≡ walk_of self.now.arena self.now.bytes.now head n }
    {
        let mut place = head;
        for i in 0..n {
            let size = expull_header::get_block_size(i + 3) as usize;
            if !self.arena.is_good_span(place, size + limits::LINK) {
                return None;
            }
            place = spans::get_u32(self.bytes, place as usize + size);
        }
        Some(place)
    }

    // The place of block i, where it and those before it are good spans, bytes and link. Its own link isn't read: it
    // leads to no block that is asked about, and lies far behind the bytes that are written, where nothing has been
    // touched yet.
    pub fn find_place(&self, head: u32, i: u32) -> Option<u32>
        requires { i < number_limit }
        ensures { result ≡ place_of self.now.arena self.now.bytes.now head i }
    {
        let place = self.walk(head, i)?;
        let size = expull_header::get_block_size(i + 3) as usize;
        self.arena
            .is_good_span(place, size + limits::LINK)
            .then_some(place)
    }

    // Whether the first n blocks of a list, bytes and link, are good spans.
    pub fn are_good_blocks(&self, head: u32, n: u32) -> bool
        requires { n ≤ number_limit }
        ensures { result ≡ good_blocks self.now.arena self.now.bytes.now head n }
    {
        n == 0 || self.find_place(head, n - 1).is_some()
    }

    // A reading: a lane's bytes to the front of the output.
    pub fn read_to_end(&self, h: Header, output: &mut [u8])
        requires { (sound_header h 0 ≡ true)
            × ((good_blocks self.now.arena self.now.bytes.now h.head (block_count h) ≡ true)
            × (lane_length h ≤ length output.old)) }
        ensures { output.new ≡ overwrite 0 (lane_bytes self.now.bytes.now h) output.old }
    {
        if h.number == limits::FIRST_BLOCK_NUM {
            return;
        }
        let last = h.number - 3;
        let mut place = h.head;
        let mut at = 0;
        for i in 0..last {
            let size = expull_header::get_block_size(i + 3) as usize;
            let from = place as usize;
            let to = from + size;
            fastcpy::copy_in(output, at, &self.bytes[from..to]);
            place = spans::get_u32(self.bytes, to);
            at += size;
        }
        let size = expull_header::get_block_size(h.number);
        let from = place as usize;
        let to = from + (size - h.remaining) as usize;
        fastcpy::copy_in(output, at, &self.bytes[from..to]);
    }

    // Finds block i of a list; none past the last.
    pub fn find_block(&self, h: Header, index: usize) -> Result<Option<Block>, Refusal>
        requires { sound_header h 0 ≡ true }
        ensures { result ≡ block_of self.now.arena self.now.bytes.now h index }
    {
        let count = (h.number - limits::FIRST_BLOCK_NUM) as usize;
        if count <= index {
            return Ok(None);
        }
        let i = index as u32;
        let at = self.find_place(h.head, i).ok_or(Refusal::Damage)?;
        Ok(Some(Block {
            at,
            length: block_length(h, i),
        }))
    }
}

// The bytes of block i: the last one's only as far as it is written.
fn block_length(h: Header, i: u32) -> u32
    requires { (sound_header h 0 ≡ true) × (i < block_count h) }
    ensures { result ≡ block_length h i }
{
    if i + 3 == h.number {
        return expull_header::get_block_size(h.number) - h.remaining;
    }
    expull_header::get_block_size(i + 3)
}
