// The header of a block list (an exponential unrolled linked list, expull.rs of the Rust crate): its 16 bytes, and what
// follows from it alone: block sizes, damage, a lane's length.
//
// It promises, for any bytes, exactly what specs/ says. Its functions are inner ones: whoever calls has room for 16
// bytes, and asks a length only of a header that is no damage. It uses limits, numbers and spans.
#![tactic(auto)]

ghost use Rattle.std.specs.Prelude.{◌≡◌, true, ◌+◌, ◌≤◌, ◌<◌, ◌^◌, length};
ghost use Rattle.spans.specs.Span.{overwrite};
ghost use Rattle.expull_header.specs.Header.{block_size, fresh, header_bytes, header_at, end_bytes_at, sound_header};
ghost use Rattle.expull_header.specs.Header.{lane_length};

// A list's header: its block number, first block, next byte to write, and the bytes that remain in the last block.
#[derive(Clone, Copy, PartialEq, Eq)]
pub struct Header {
    pub number: u32,
    pub head: u32,
    pub tail: u32,
    pub remaining: u32,
}

// The header of a list without blocks.
pub fn fresh_header() -> Header
    ensures { result ≡ fresh }
{
    Header {
        number: limits::FIRST_BLOCK_NUM,
        head: limits::NULL,
        tail: limits::NULL,
        remaining: 0,
    }
}

// The bytes that a block holds.
pub fn get_block_size(number: u32) -> u32
    ensures { (result ≡ block_size number) × ((0 < result) × (result ≤ 32768)) }
{
    let exp = (number as usize).min(limits::SIZE_TOP);
    1u32 << exp
}

// The header at a place.
pub fn get_header(mem: &[u8], at: usize) -> Header
    requires { at + 16 ≤ length mem.now }
    ensures { (result ≡ header_at at mem.now) × (result.remaining < 2 ^ 16) }
{
    let number = spans::get_u32(mem, at);
    let head = spans::get_u32(mem, at + 4);
    let tail = spans::get_u32(mem, at + 8);
    let remaining = spans::get_u16(mem, at + 12);
    Header {
        number,
        head,
        tail,
        remaining,
    }
}

// The number of its two end bytes.
pub fn get_end_bytes(mem: &[u8], at: usize) -> u32
    requires { at + 16 ≤ length mem.now }
    ensures { result ≡ end_bytes_at at mem.now }
{
    spans::get_u16(mem, at + 14)
}

// Writes a header's 16 bytes.
pub fn put_header(mem: &mut [u8], at: usize, h: Header)
    requires { at + 16 ≤ length mem.old }
    ensures { mem.new ≡ overwrite at (header_bytes h) mem.old }
{
    spans::put_u32(mem, at, h.number);
    spans::put_u32(mem, at + 4, h.head);
    spans::put_u32(mem, at + 8, h.tail);
    spans::put_u16(mem, at + 12, h.remaining);
    spans::put_u16(mem, at + 14, 0);
}

// Whether a header is no damage.
pub fn is_sound_header(h: Header, ends: u32) -> bool
    ensures { result ≡ sound_header h ends }
{
    if h.number == limits::FIRST_BLOCK_NUM {
        return (h == fresh_header()) & (ends == 0);
    }
    let size = get_block_size(h.number);
    (limits::FIRST_BLOCK_NUM <= h.number)
        & (h.number <= limits::NUMBER_LIMIT)
        & ((h.head != limits::NULL) & (h.remaining <= size))
        & (ends == 0)
}

// A lane's length, from its header alone: at most 4,587,094,008. The blocks up to number 15 double, those after it are
// of one size.
pub fn lane_length(h: Header) -> u64
    requires { sound_header h 0 ≡ true }
    ensures { result ≡ lane_length h }
{
    if h.number == limits::FIRST_BLOCK_NUM {
        return 0;
    }
    let remaining = h.remaining as u64;
    if h.number <= 15 {
        let size = get_block_size(h.number) as u64;
        return 2 * size - 8 - remaining;
    }
    let number = h.number as u64;
    32760 + (number - 14) * 32768 - remaining
}
