// The store's state in a lent area of 64 bytes, for a caller that can't hand it over by value (document 02, Twelve).
//
// It promises that a state written to an area is the state read from it, that such an area is sensible, and that only
// its 64 bytes are written; docs/LAYOUT.md has the layout, specs/Area.antt the definition. Whether the numbers are
// those of a store is the whole-state check's to say, in each call. It uses spans, memory_arena, store_state and
// store_look.
#![tactic(auto)]

ghost use Rattle.std.specs.Prelude.{◌≡◌, cond, ◌+◌, ◌≤◌, length};
ghost use Rattle.numbers.specs.LittleEndian.{le_bytes};
ghost use Rattle.spans.specs.Span.{overwrite};
ghost use Rattle.state_area.specs.Area.{area_size, sensible_area, arena_at, state_at, four_bytes, area_of};

use memory_arena::Arena;
use store_state::State;

// Bytes of the area, and its first number: the letters NUV1.
pub const AREA_SIZE: usize = 64;

const MARK: u32 = 827741518;

// ---- read

// Whether an area is long enough and has the layout's mark, an end that is one, and zeros at its end.
pub fn is_sensible_area(area: &[u8]) -> bool
    ensures { result ≡ sensible_area area.now }
{
    if area.len() < AREA_SIZE {
        return false;
    }
    let mark = spans::get_u32(area, 0);
    let end = spans::get_u32(area, 24);
    let rest = spans::get_u64(area, 52);
    let last = spans::get_u32(area, 60);
    (mark == MARK) & (end <= 1) & (rest == 0) & (last == 0)
}

// An arena's state: its page and its used bytes at a place, and the page size that both arenas have.
fn arena_at(area: &[u8], at: usize) -> Arena
    requires { (area_size ≤ length area.now) × (at ≤ 40) }
    ensures { result ≡ arena_at at area.now }
{
    let page = spans::get_u32(area, at) as usize;
    let used = spans::get_u32(area, at + 4) as usize;
    let size = spans::get_u32(area, 48) as usize;
    Arena { page, used, size }
}

// The state that an area holds.
pub fn load(area: &[u8]) -> State
    requires { area_size ≤ length area.now }
    ensures { result ≡ state_at area.now }
{
    let seed = spans::get_u32(area, 4);
    let key_bytes = spans::get_u32(area, 8);
    let list_bytes = spans::get_u32(area, 12);
    let words = spans::get_u32(area, 16);
    let buckets = spans::get_u32(area, 20);
    let end = spans::get_u32(area, 24);
    let keys = spans::get_u32(area, 28);
    let key_arena = arena_at(area, 32);
    let list_arena = arena_at(area, 40);
    State {
        seed,
        words: words as usize,
        key_bytes: key_bytes as usize,
        list_bytes: list_bytes as usize,
        buckets: buckets as usize,
        back: end == 1,
        keys: keys as usize,
        key_arena,
        list_arena,
    }
}

// ---- written

// The four low bytes of a number.
fn put_number(area: &mut [u8], at: usize, x: usize)
    requires { at + 4 ≤ length area.old }
    ensures { area.new ≡ overwrite at (le_bytes 4 x) area.old }
{
    spans::put_u32(area, at, (x % 4294967296) as u32);
}

fn put_four(area: &mut [u8], at: usize, a: usize, b: usize, c: usize, d: usize)
    requires { at + 16 ≤ length area.old }
    ensures { area.new ≡ overwrite at (four_bytes a b c d) area.old }
{
    put_number(area, at, a);
    put_number(area, at + 4, b);
    put_number(area, at + 8, c);
    put_number(area, at + 12, d);
}

fn one_if(b: bool) -> usize
    ensures { result ≡ cond b 1 0 }
{
    if b {
        return 1;
    }
    0
}

// Writes a state to the front of an area.
pub fn save(area: &mut [u8], st: State)
    requires { area_size ≤ length area.old }
    ensures { area.new ≡ overwrite 0 (area_of st) area.old }
{
    let keys = st.key_arena;
    let lists = st.list_arena;
    let end = one_if(st.back);
    put_four(
        area,
        0,
        MARK as usize,
        st.seed as usize,
        st.key_bytes,
        st.list_bytes,
    );
    put_four(area, 16, st.words, st.buckets, end, st.keys);
    put_four(area, 32, keys.page, keys.used, lists.page, lists.used);
    put_four(area, 48, keys.size, 0, 0, 0);
}
