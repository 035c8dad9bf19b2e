// Appends one behind the other in a run of bytes: for each the name length (2 bytes, little-endian), the name, the byte
// length (4), the bytes. A script and the flat store's buffer have this one form.
//
// It promises that an entry is written in that form and nothing else is touched, and that of any bytes the entry at a
// place is told, or that no whole one is there. specs/Form.antt says what that means; specs/Log.antt has what appends
// come to for a name, which the histories of both stores use. Its two functions ask that the place, and what is
// written, lies in the run: the layers above have shown that before they call. It uses limits, numbers, spans, fastcmp
// (names, in definitions) and fastcpy.
#![tactic(auto)]

ghost use Rattle.std.specs.Prelude.{◌≡◌, ◌+◌, ◌≤◌, length};
ghost use Rattle.spans.specs.Span.{overwrite};
ghost use Rattle.entries.specs.Log.{entry};
ghost use Rattle.entries.specs.Form.{encoded, entry_size, Fits, entry_at, Inside};

// The most bytes that an entry's four length bytes tell.
pub const BYTE_LIMIT: usize = 4294967295;

// An entry's places in its run: where its name ends, where its bytes start and where they end. Its name starts two bytes
// behind its own place.
#[derive(Clone, Copy, Debug, PartialEq, Eq)]
pub struct Entry {
    pub name_end: usize,
    pub from: usize,
    pub to: usize,
}

// The entry at a place, if a whole one is there.
#[tactic(auto, unfolding(crate::specs::Form::entry_at))]
pub fn entry_at(run: &[u8], at: usize) -> Option<Entry>
    requires { at ≤ length run.now }
    ensures entry { result ≡ entry_at run.now at }
    ensures inside { Inside (length run.now) at result }
{
    let left = run.len() - at;
    if left < 6 {
        return None;
    }
    let n = spans::get_u16(run, at) as usize;
    if left - 6 < n {
        return None;
    }
    let m = spans::get_u32(run, at + 2 + n) as usize;
    if left - 6 - n < m {
        return None;
    }
    let name_end = at + 2 + n;
    let from = name_end + 4;
    let to = from + m;
    Some(Entry { name_end, from, to })
}

// Writes an entry at a place.
pub fn put_entry(run: &mut [u8], at: usize, name: &[u8], bytes: &[u8])
    requires fits { Fits (entry name.now bytes.now) }
    requires bytes_in_bounds { at + entry_size name.now bytes.now ≤ length run.old }
    ensures { run.new
        ≡ overwrite at (encoded (entry name.now bytes.now)) run.old }
{
    let n = name.len();
    let m = bytes.len();
    let name_at = at + 2;
    let name_end = name_at + n;
    let bytes_at = name_end + 4;
    spans::put_u16(run, at, n as u32);
    fastcpy::copy_in(run, name_at, name);
    spans::put_u32(run, name_end, m as u32);
    fastcpy::copy_in(run, bytes_at, bytes);
}
