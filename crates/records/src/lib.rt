// A record of the key pages: the name's length as two bytes, the name, and the 16 bytes of its list's header.
//
// It promises, on any memory, exactly what specs/Record.antt says of the bytes at a place: whether they are a good
// record, the name's length, where the header is and what it says; and that a record is written byte for byte. Its
// functions are inner ones: whoever calls has made the whole-state check, and has met the record or found room for it.
// It uses limits, numbers, spans, fastcpy, memory_arena and expull_header.
#![tactic(auto)]

ghost use Rattle.std.specs.Prelude.{◌≡◌, true, ◌+◌, ◌≤◌, ◌<◌, ◌^◌, length};
ghost use Rattle.limits.specs.Limits.{name_limit};
ghost use Rattle.spans.specs.Span.{overwrite};
ghost use Rattle.memory_arena.specs.Calls.{sensible};
ghost use Rattle.records.specs.Record.{key_length, good_record, value_place, head_of, record_bytes};

use expull_header::Header;
use memory_arena::Arena;

// Whether a record, its length bytes first, is a good span.
pub fn is_good_record(keys: &[u8], arena: Arena, at: u32) -> bool
    requires { sensible arena (length keys.now) ≡ true }
    ensures { result ≡ good_record arena keys.now at }
{
    if !arena.is_good_span(at, 2) {
        return false;
    }
    let n = key_length(keys, at);
    arena.is_good_span(at, n + limits::RECORD_EXTRA)
}

// The key length of a good record.
pub fn key_length(keys: &[u8], at: u32) -> usize
    requires { at + 2 ≤ length keys.now }
    ensures { (result ≡ key_length keys.now at) × (result < 2 ^ 16) }
{
    let from = at as usize;
    spans::get_u16(keys, from) as usize
}

// Where a record's value starts.
pub fn value_place(keys: &[u8], at: u32) -> usize
    requires { at + 2 ≤ length keys.now }
    ensures { result ≡ value_place keys.now at }
{
    (at as usize) + 2 + key_length(keys, at)
}

// The header of the record at a place; none where it is damage. Public for the calls that read a lane in other ways than
// these here.
pub fn get_head(keys: &[u8], at: u32) -> Option<Header>
    requires { (at + 2 ≤ length keys.now) × (value_place keys.now at + 16 ≤ length keys.now) }
    ensures { result ≡ head_of keys.now at }
{
    let place = value_place(keys, at);
    let h = expull_header::get_header(keys, place);
    let ends = expull_header::get_end_bytes(keys, place);
    expull_header::is_sound_header(h, ends).then_some(h)
}

// Writes a record: the name's length, the name, the header.
pub fn put_record(keys: &mut [u8], at: usize, name: &[u8], h: Header)
    requires { (at + (length name.now + 18) ≤ length keys.old) × (length name.now ≤ name_limit) }
    ensures { keys.new ≡ overwrite at (record_bytes name.now h) keys.old }
{
    let n = name.len();
    spans::put_u16(keys, at, n as u32);
    fastcpy::copy_in(keys, at + 2, name);
    expull_header::put_header(keys, at + 2 + n, h);
}
