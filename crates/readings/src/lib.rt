// Lanes of readings (document 02, Four): a reading appended to a lane, and all of a lane's readings read back.
//
// It promises, for any state, any lent memory and any arguments: a reading's append is one append of its difference's
// vint, with an append's refusals; reading back gives the readings that the lane's bytes make, or refuses by 2, 3, 4,
// then 8, then by the vint reader's number, and a refusal leaves every place of the output as it was. 8 and the vint
// reader's number tell the count of whole readings. specs/Readings.antt is that. The lane's bytes are gone over twice,
// to count and to write. It uses limits, numbers, spans, vint, signed, reading_run, memory_arena, records,
// shared_arena_hashmap, expull_header, expull_walk, store_state, store_create, store_look, store_append and store.
#![tactic(auto)]

ghost use Rattle.std.specs.Prelude.{◌≡◌, true, ◌+◌, ◌≤◌, length};
ghost use Rattle.limits.specs.Refusals.{appending_reading, reading_readings, permitted};
ghost use Rattle.memory_arena.specs.Calls.{sensible};
ghost use Rattle.expull_header.specs.Header.{sound_header, block_count};
ghost use Rattle.expull_walk.specs.Blocks.{good_blocks, lane_bytes};
ghost use Rattle.records.specs.Record.{value_place};
ghost use Rattle.store_append.specs.Said.{said_appended};
ghost use Rattle.store_look.specs.Look.{lent, looked_of};
ghost use Rattle.store_append.specs.Append.{out as appended_out, append_of};
ghost use Rattle.reading_run.specs.Readings.{vints_of};
ghost use Rattle.reading_run.specs.Run.{out as run_out, begun, run_of, end_of};
ghost use Rattle.readings.specs.Readings.{out, not_found, readings_at, readings_of, append_reading_of};
ghost use Rattle.readings.specs.Said.{said_recalled};

use expull_header::Header;
use expull_walk::Lists;
use reading_run::Run;
use store_append::ToldAppend;
use store_look::Lookup;
use store_state::State;

// How many readings are at the output's front; absent; or a refusal's number and the count that it tells.
#[derive(Clone, Copy)]
pub enum Recalled {
    Readings(u64),
    Absent,
    Refused(u32, u64),
}

// A reading back's answer, and how many buckets its lookup looked at, as the store tells it.
#[derive(Clone, Copy)]
pub struct ToldReadings {
    pub answer: Recalled,
    pub walk: usize,
}

// ---- reading back

// All bytes of a list, block by block.
fn take_lane(lists: &Lists, h: Header, output: &mut [i32]) -> Run
    requires { (sound_header h 0 ≡ true)
        × (good_blocks lists.now.arena lists.now.bytes.now h.head (block_count h) ≡ true) }
    ensures { run_out result output.new
        ≡ run_of begun (lane_bytes lists.now.bytes.now h) output.old }
{
    let mut s = reading_run::begin();
    if h.number == limits::FIRST_BLOCK_NUM {
        return s;
    }
    let last = h.number - 3;
    let mut place = h.head;
    for i in 0..last {
        let size = expull_header::get_block_size(i + 3) as usize;
        let from = place as usize;
        let to = from + size;
        s = reading_run::take_bytes(s, &lists.bytes[from..to], output);
        place = spans::get_u32(lists.bytes, to);
    }
    let size = expull_header::get_block_size(h.number);
    let from = place as usize;
    let to = from + (size - h.remaining) as usize;
    reading_run::take_bytes(s, &lists.bytes[from..to], output)
}

// The first pass: whole readings are counted, and none goes to the caller's output.
fn count_lane(lists: &Lists, h: Header) -> Run
    requires { (sound_header h 0 ≡ true)
        × (good_blocks lists.now.arena lists.now.bytes.now h.head (block_count h) ≡ true) }
    ensures { (result.readings ≡ length (vints_of (lane_bytes lists.now.bytes.now h)).numbers)
        × (end_of result ≡ (vints_of (lane_bytes lists.now.bytes.now h)).refusal) }
{
    let mut none = [0i32; 1];
    take_lane(lists, h, &mut none)
}

// A standing lane's readings, through its record. All blocks are met and all readings counted before the output's
// length matters, and that and how the bytes end before a reading is written.
fn readings_at(
    st: State,
    table: &[u32],
    keys: &[u8],
    lists: &[u8],
    at: u32,
    output: &mut [i32],
) -> Recalled
    requires { (sensible st.list_arena (length lists.now) ≡ true)
        × ((at + 2 ≤ length keys.now) × (value_place keys.now at + 16 ≤ length keys.now)) }
    ensures { out result output.new
        ≡ readings_at st (lent table.now keys.now lists.now) at
        output.old }
{
    let pages = Lists {
        bytes: lists,
        arena: st.list_arena,
    };
    let Some(h) = records::get_head(keys, at) else {
        return Recalled::Refused(4, 0);
    };
    if !pages.are_good_blocks(h.head, h.number - 2) {
        return Recalled::Refused(4, 0);
    }
    let counted = count_lane(&pages, h);
    let n = counted.readings;
    if output.len() < n {
        return Recalled::Refused(8, n as u64);
    }
    if let Some(r) = reading_run::end_of(counted) {
        return Recalled::Refused(r.number(), n as u64);
    }
    take_lane(&pages, h, output);
    Recalled::Readings(n as u64)
}

// The answer to a lookup that found no record.
fn not_found(found: Lookup) -> Recalled
    ensures { result ≡ not_found found }
{
    match found {
        Lookup::At(_) => Recalled::Absent,
        Lookup::Missing => Recalled::Absent,
        Lookup::Failed(n) => Recalled::Refused(n, 0),
    }
}

// A lane's readings to the front of the output.
pub fn readings(
    st: State,
    table: &[u32],
    keys: &[u8],
    lists: &[u8],
    name: &[u8],
    output: &mut [i32],
) -> ToldReadings
    ensures settled { out result.answer output.new
        ≡ readings_of st (lent table.now keys.now lists.now) name.now
        output.old }
    ensures numbered { permitted reading_readings (said_recalled result.answer) ≡ true }
    ensures walked { result.walk
        ≡ looked_of st (lent table.now keys.now lists.now) name.now }
{
    let looked = store_look::lane::lookup(st, table, keys, lists, name);
    let walk = looked.walk;
    let found = looked.answer;
    let Lookup::At(at) = found else {
        return ToldReadings {
            answer: not_found(found),
            walk,
        };
    };
    ToldReadings {
        answer: readings_at(st, table, keys, lists, at, output),
        walk,
    }
}

// ---- a reading appended

// Appends a reading to the lane of a name, behind the lane's last accepted one (0 where there is none), which the
// caller hands in.
pub fn append_reading(
    st: State,
    table: &mut [u32],
    keys: &mut [u8],
    lists: &mut [u8],
    name: &[u8],
    last: i32,
    new: i32,
) -> ToldAppend
    ensures settled { appended_out result.answer (lent table.new keys.new lists.new)
        ≡ append_reading_of st (lent table.old keys.old lists.old) name.now
        last new }
    ensures numbered { permitted appending_reading (said_appended result.answer) ≡ true }
    ensures walked { result.walk
        ≡ looked_of st (lent table.old keys.old lists.old) name.now }
{
    let d = signed::difference(last, new);
    let v = vint::serialize_vint_u32(signed::encode(d));
    store_append::append(st, table, keys, lists, name, v.as_slice())
}
