// A memory arena over lent pages: addresses, allocation, and bare reads and writes.
//
// It promises, for any state, any lent length and any address: an answer or a refusal by document 01's numbers, as
// specs/Calls.antt says, no byte touched outside a good span, and nothing changed by a refusal. specs/Address.antt and
// specs/Pages.antt have the rules for every page size, proofs/Laws.antt what follows from them. The pages of a lent
// slice lie one behind the other, so an address is a place in the slice, and only the test for good spans needs its
// page. The calls on an arena are methods of its state. It uses limits, numbers, spans and fastcpy.
#![tactic(auto)]

ghost use Rattle.std.specs.Prelude.{◌≡◌, true, ◌+◌, ◌*◌, ◌≤◌, ◌<◌, ◌%◌, ◌^◌};
ghost use Rattle.limits.specs.Limits.{page_taken};
ghost use Rattle.limits.specs.Refusals.{allocating, touching, permitted};
ghost use Rattle.numbers.specs.Wrap.{wrap_add};
ghost use Rattle.memory_arena.specs.Address.{address_of, page_of, place_of};
ghost use Rattle.memory_arena.specs.Pages.{capacity_of, used_on, good_span, room_for};
ghost use Rattle.memory_arena.specs.Calls.{sensible, reachable, allocate_of, said_allocated, read_of, write_of};
ghost use Rattle.memory_arena.specs.Calls.{slice_of, out, said_touched};

use limits::Refusal;

// An arena's state beside its lent pages: the current page, the bytes used there, and a page's bytes.
#[derive(Clone, Copy)]
pub struct Arena {
    pub page: usize,
    pub used: usize,
    pub size: usize,
}

// Room that an allocation found: its address, and the arena's state after it.
#[derive(Clone, Copy)]
pub struct Room {
    pub at: u32,
    pub after: Arena,
}

// ---- addresses

// Whether a page may have this many bytes.
pub fn is_page_size(size: usize) -> bool
    ensures { result ≡ page_taken size }
{
    matches!(
        size,
        limits::SMALLEST_PAGE | 131072 | 262144 | 524288 | limits::PAGE_SIZE
    )
}

// Page and place put together, modulo 2^32.
pub fn addr_new(size: u32, page: u32, place: u32) -> u32
    ensures { result ≡ address_of size page place % 2 ^ 32 }
{
    (((page as u64) * (size as u64) + (place as u64)) % 4294967296) as u32
}

// An address's page. A page's bytes are a power of two, and the zero bits at their end say how far to shift.
fn page_id(size: usize, addr: u32) -> usize
    requires { page_taken size ≡ true }
    ensures { result ≡ page_of size addr }
{
    let shift = size.trailing_zeros();
    (addr >> shift) as usize
}

// And its place there.
fn page_local_addr(size: usize, addr: u32) -> usize
    requires { page_taken size ≡ true }
    ensures { result ≡ place_of size addr }
{
    let mask = (size - 1) as u32;
    (addr & mask) as usize
}

// An address and an offset, which wraps.
pub fn offset(addr: u32, n: u32) -> u32
    ensures { result ≡ wrap_add addr n }
{
    numbers::wrapping_add(addr, n)
}

// ---- pages

// How many bytes a page of a lent memory holds.
fn page_capacity(size: usize, len: usize, page: usize) -> usize
    requires { page * size < 2 ^ 64 }
    ensures { result ≡ capacity_of size len page }
{
    size.min(len.saturating_sub(page * size))
}

impl Arena {
    // Whether this is the state of an arena over a lent memory of that length. A page that no arena has is sorted out
    // first, so that the product is small.
    pub fn is_sensible(self, len: usize) -> bool
        ensures { result ≡ sensible self len }
    {
        let Arena { page, used, size } = self;
        is_page_size(size)
            && page < limits::PAGE_LIMIT
            && len <= limits::ADDRESSES - size
            && page * size < len
            && used <= page_capacity(size, len, page)
    }

    fn used_on(self, page: usize) -> usize
        ensures { result ≡ used_on self page }
    {
        if page == self.page {
            self.used
        } else {
            self.size
        }
    }

    // Whether n bytes from an address lie within the used bytes of one page.
    pub fn is_good_span(self, at: u32, n: usize) -> bool
        requires { page_taken self.size ≡ true }
        ensures { result ≡ good_span self at n }
    {
        let page = page_id(self.size, at);
        let place = page_local_addr(self.size, at);
        let used = self.used_on(page);
        page <= self.page && place <= used && n <= used - place
    }

    // Whether a span of the lent pages may be touched.
    fn is_reachable(self, len: usize, at: u32, n: usize) -> bool
        ensures { result ≡ reachable self len at n }
    {
        self.is_sensible(len) && self.is_good_span(at, n)
    }

    // ---- allocation

    // Room for n bytes, which are at most a page's, in an arena whose state is sensible; none where no page has it.
    pub fn find_room(self, len: usize, n: usize) -> Option<Room>
        requires { (0 < n) × ((n ≤ self.size) × (sensible self len ≡ true)) }
        ensures { result ≡ room_for self len n }
    {
        let Arena { page, used, size } = self;
        if used + n <= page_capacity(size, len, page) {
            return Some(Room {
                at: (page * size + used) as u32,
                after: Arena {
                    used: used + n,
                    ..self
                },
            });
        }
        let next = page + 1;
        if n <= page_capacity(size, len, next) {
            return Some(Room {
                at: (next * size) as u32,
                after: Arena {
                    page: next,
                    used: n,
                    size,
                },
            });
        }
        None
    }

    // Allocates n bytes, where a page has room.
    pub fn allocate_space(self, len: usize, n: usize) -> Result<Option<Room>, Refusal>
        ensures settled { result ≡ allocate_of self len n }
        ensures numbered { permitted allocating (said_allocated result) ≡ true }
    {
        if !is_page_size(self.size) {
            return Err(Refusal::OutOfArena);
        }
        if n == 0 || self.size < n {
            return Err(Refusal::WrongLength);
        }
        if !self.is_sensible(len) {
            return Err(Refusal::OutOfArena);
        }
        Ok(self.find_room(len, n))
    }

    // ---- bare reads and writes

    // Reads as many bytes as the output has, from an address.
    pub fn read(self, pages: &[u8], at: u32, output: &mut [u8]) -> Result<(), Refusal>
        ensures settled { out result output.new ≡ read_of self pages.now at output.old }
        ensures numbered { permitted touching (said_touched result) ≡ true }
    {
        let n = output.len();
        if !self.is_reachable(pages.len(), at, n) {
            return Err(Refusal::OutOfArena);
        }
        let from = at as usize;
        fastcpy::copy_in(output, 0, &pages[from..from + n]);
        Ok(())
    }

    // Writes bytes at an address.
    pub fn write_at(self, pages: &mut [u8], at: u32, bytes: &[u8]) -> Result<(), Refusal>
        ensures settled { out result pages.new ≡ write_of self pages.old at bytes.now }
        ensures numbered { permitted touching (said_touched result) ≡ true }
    {
        if !self.is_reachable(pages.len(), at, bytes.len()) {
            return Err(Refusal::OutOfArena);
        }
        fastcpy::copy_in(pages, at as usize, bytes);
        Ok(())
    }

    // A good span as a part of the lent pages; the empty part otherwise.
    pub fn slice(self, pages: &[u8], at: u32, n: usize) -> &[u8]
        ensures { result.now ≡ slice_of self pages.now at n }
    {
        if !self.is_reachable(pages.len(), at, n) {
            return &pages[0..0];
        }
        let from = at as usize;
        &pages[from..from + n]
    }
}
