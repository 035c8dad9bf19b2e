// The lanes of a store, met one by one in listing order, and their text measured: the report's first pass (document 02,
// One).
//
// specs/Lanes.antt says which lanes a report has, or which damage ends it. The functions that are public here have
// `requires`: they are inner functions of the crate report, which has made the whole-state check. It uses the store's
// listing and its reading through a record.
#![tactic(auto)]

ghost use Rattle.std.specs.Prelude.{◌≡◌, true, ◌+◌, ◌≤◌, ◌<◌, length, IfOk, IfSome};
ghost use Rattle.memory_arena.specs.Calls.{sensible};
ghost use Rattle.records.specs.Record.{value_place};
ghost use Rattle.store_look.specs.Look.{lent, checked};
ghost use Rattle.report_lanes.specs.Lanes.{gather_all, stopped_by};
ghost use Rattle.report_lanes.specs.Measure.{on_answer, met_of, next_lane_of, lane_size, measured_of};
ghost use Rattle.report_lanes.specs.Measure.{Small, Few};

use limits::Refusal;
use store_look::{Answer, Listed, Outcome};
use store_state::State;

// A lane that was met: its bucket, its record's place, the bytes of its name and its own.
#[derive(Clone, Copy, Debug, PartialEq, Eq)]
pub struct MetLane {
    pub bucket: usize,
    pub at: u32,
    pub name: u64,
    pub bytes: u64,
}

// How many lanes, their bytes, and the bytes of their text.
#[derive(Clone, Copy, Debug, PartialEq, Eq)]
pub struct Sums {
    pub lanes: u64,
    pub bytes: u64,
    pub text: u64,
}

// ---- each lane met

// A lane's length, which a reading into no output at all tells with 8 or as a reading; anything else is damage.
fn length_told(answer: Answer) -> Result<u64, Refusal>
    ensures { result ≡ on_answer answer }
{
    match answer {
        Answer::Found(Outcome::Reading(n)) => Ok(n),
        Answer::Refused(8, n) => Ok(n),
        _ => Err(Refusal::Damage),
    }
}

// The lane of the record at a place: a reading into no output at all meets every block and tells the length.
fn meet(
    st: State,
    table: &[u32],
    keys: &[u8],
    lists: &[u8],
    bucket: usize,
    at: u32,
) -> Result<MetLane, Refusal>
    requires { (sensible st.list_arena (length lists.now) ≡ true)
        × ((bucket < st.buckets) × ((at + 2 ≤ length keys.now) × (value_place keys.now at + 16 ≤ length keys.now))) }
    ensures { (result ≡ met_of st (lent table.now keys.now lists.now) bucket at)
        × IfOk result (Small st.buckets) }
{
    let answer = store_look::lane::read_at(st, table, keys, lists, at, &mut []);
    let bytes = length_told(answer)?;
    let name = records::key_length(keys, at) as u64;
    Ok(MetLane {
        bucket,
        at,
        name,
        bytes,
    })
}

// Why the listing stopped, which it tells by number: a state that isn't one of the memory, or damage.
fn stopped(number: u32) -> Refusal
    ensures { result ≡ stopped_by number }
{
    if number == 2 {
        Refusal::NotWhole
    } else {
        Refusal::Damage
    }
}

// The next lane from a bucket on, or none.
pub fn next_lane(
    st: State,
    table: &[u32],
    keys: &[u8],
    lists: &[u8],
    index: usize,
) -> Result<Option<MetLane>, Refusal>
    requires { checked st (lent table.now keys.now lists.now) ≡ true }
    ensures { (result ≡ next_lane_of st (lent table.now keys.now lists.now) index)
        × IfOk result (λ next. IfSome next (Small st.buckets)) }
{
    match store_look::listing::next_occupied(st, table, keys, lists, index) {
        Listed::Bucket(i, at) => Ok(Some(meet(st, table, keys, lists, i, at)?)),
        Listed::NoMore => Ok(None),
        Listed::Stopped(n) => Err(stopped(n)),
    }
}

// The bytes of a lane's text.
pub fn lane_size(name: u64, n: u64) -> u64
    requires { (name < 65536) × (n ≤ 4587094008) }
    ensures { (result ≡ lane_size name n) × (result ≤ 10000000000) }
{
    18 + 2 * name + (report_put::digit_count(n) as u64) + 2 * n
}

// Meets all lanes, and measures their text.
pub fn measure(st: State, table: &[u32], keys: &[u8], lists: &[u8]) -> Result<Sums, Refusal>
    requires { checked st (lent table.now keys.now lists.now) ≡ true }
    ensures { (result ≡ measured_of
        (gather_all st (lent table.now keys.now lists.now))) × IfOk result Few }
{
    let mut index = 0;
    let mut sums = Sums {
        lanes: 0,
        bytes: 0,
        text: 0,
    };
    for _ in 0..st.buckets {
        let Some(lane) = next_lane(st, table, keys, lists, index)? else {
            return Ok(sums);
        };
        let size = lane_size(lane.name, lane.bytes);
        sums.lanes += 1;
        sums.bytes += lane.bytes;
        sums.text += size;
        index = lane.bucket + 1;
    }
    Ok(sums)
}
