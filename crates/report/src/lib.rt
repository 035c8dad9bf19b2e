// The shift report of a store (document 02, One): the writer.
//
// It promises, for any state, any lent memory and any output: 2, then 4 for any lane's record, header or block, then 8
// with the bytes needed, and nothing is written; else the text of the lanes at the output's front, and no byte behind
// it. specs/Report.antt is that. It uses store_state, store_create, store_look, store_append, report_text, report_put
// and report_lanes.
#![tactic(auto)]

ghost use Rattle.std.specs.Prelude.{◌≡◌, true, ◌+◌, ◌^◌, ◌≤◌, ◌<◌, length};
ghost use Rattle.limits.specs.Refusals.{reporting, permitted};
ghost use Rattle.spans.specs.Span.{overwrite};
ghost use Rattle.records.specs.Record.{key_length, header_of};
ghost use Rattle.expull_walk.specs.Blocks.{lane_bytes};
ghost use Rattle.store_look.specs.Look.{lent};
ghost use Rattle.report_text.specs.Text.{decimal, hex, lane_text, lanes_text, head_text};
ghost use Rattle.report_lanes.specs.Lanes.{lane_at};
ghost use Rattle.report_lanes.specs.Measure.{lane_size, Standing};
ghost use Rattle.report.specs.Report.{out, report_of};
ghost use Rattle.report.specs.Write.{lanes_met, Room};
ghost use Rattle.report.specs.Said.{said_reported};
ghost use Rattle.report.specs.declared.Unwritten.TheVariants.{Refused};

use limits::Refusal;
use report_lanes::MetLane;
use store_state::State;

// Why no report is written: the state or a lane, or an output that is too short, with the bytes needed.
#[derive(Clone, Copy, Debug, PartialEq, Eq)]
pub enum Unwritten {
    Refused(Refusal),
    TooShort(u64),
}

impl From<Refusal> for Unwritten {
    ghost from_gives = { λ refusal e. e ≡ Refused refusal };

    fn from(refusal: Refusal) -> Unwritten {
        Unwritten::Refused(refusal)
    }
}

// A lane's bytes as hex: they are read to the second half of their room, and spread over all of it.
fn write_bytes(
    st: State,
    table: &[u32],
    keys: &[u8],
    lists: &[u8],
    at: u32,
    n: usize,
    output: &mut [u8],
    p: usize,
)
    requires { Standing st (lent table.now keys.now lists.now) at n × (p + (n + n) ≤ length output.old) }
    ensures { output.new
        ≡ overwrite p (hex (lane_bytes lists.now (header_of keys.now at))) output.old }
{
    let mid = p + n;
    let end = mid + n;
    store_look::lane::read_at(st, table, keys, lists, at, &mut output[mid..end]);
    report_put::spread(&mut output[p..end], n);
}

// A lane's text; answers where it ends.
fn write_lane(
    st: State,
    table: &[u32],
    keys: &[u8],
    lists: &[u8],
    lane: MetLane,
    output: &mut [u8],
    p: usize,
) -> usize
    requires { Standing st (lent table.now keys.now lists.now) lane.at lane.bytes × ((key_length keys.now lane.at
        ≡ lane.name) × ((lane.bytes ≤ 4587094008) × (p + lane_size lane.name lane.bytes ≤ length output.old))) }
    ensures { (output.new
        ≡ overwrite p (lane_text (lane_at (lent table.now keys.now lists.now) lane.at))
        output.old) × (result ≡ p + lane_size lane.name lane.bytes) }
{
    let n = lane.bytes as usize;
    let from = lane.at as usize + 2;
    let to = from + lane.name as usize;
    let a = report_put::put_hex_line(output, p, b"term=", &keys[from..to]);
    let b = report_put::put_number_line(output, a, b"len=", lane.bytes);
    fastcpy::copy_in(output, b, b"bytes=");
    let d = b + 6;
    write_bytes(st, table, keys, lists, lane.at, n, output, d);
    let e = d + 2 * n;
    output[e] = b'\n';
    e + 1
}

// All lanes' text from a place on; answers where it ends.
fn write_lanes(
    st: State,
    table: &[u32],
    keys: &[u8],
    lists: &[u8],
    output: &mut [u8],
    from: usize,
) -> usize
    requires { Room st (lent table.now keys.now lists.now) from (length output.old) }
    ensures { (output.new
        ≡ overwrite from (lanes_text (lanes_met st (lent table.now keys.now lists.now)))
        output.old) × (result ≡ from + length
        (lanes_text (lanes_met st (lent table.now keys.now lists.now)))) }
{
    let mut index = 0;
    let mut p = from;
    for _ in 0..st.buckets {
        match report_lanes::next_lane(st, table, keys, lists, index) {
            Ok(Some(lane)) => {
                p = write_lane(st, table, keys, lists, lane, output, p);
                index = lane.bucket + 1;
            }
            Ok(None) => return p,
            Err(_) => return p,
        }
    }
    p
}

// The lines before the first lane; answers where they end.
fn write_head(output: &mut [u8], lanes: u64, bytes: u64) -> usize
    requires { (lanes < 10 ^ 18) × ((bytes < 10 ^ 18) × (length (head_text lanes bytes) ≤ length output.old)) }
    ensures { (output.new ≡ overwrite 0 (head_text lanes bytes) output.old)
        × (result ≡ length (head_text lanes bytes)) }
{
    fastcpy::copy_in(output, 0, b"store=1\n");
    let a = report_put::put_number_line(output, 8, b"terms=", lanes);
    report_put::put_number_line(output, a, b"total=", bytes)
}

// Writes the report to the output's front. All lanes are met before the output's length matters, and that before a byte
// is written.
pub fn report(
    st: State,
    table: &[u32],
    keys: &[u8],
    lists: &[u8],
    output: &mut [u8],
) -> Result<u64, Unwritten>
    ensures settled { out result output.new
        ≡ report_of st (lent table.now keys.now lists.now) output.old }
    ensures numbered { permitted reporting (said_reported result) ≡ true }
{
    if !store_state::is_whole_state(st, table.len(), keys.len(), lists.len()) {
        return Err(Unwritten::Refused(Refusal::NotWhole));
    }
    let sums = report_lanes::measure(st, table, keys, lists)?;
    let k = report_put::digit_count(sums.lanes) as u64;
    let j = report_put::digit_count(sums.bytes) as u64;
    let n = 28 + k + j + sums.text;
    if (output.len() as u64) < n {
        return Err(Unwritten::TooShort(n));
    }
    let p = write_head(output, sums.lanes, sums.bytes);
    let q = write_lanes(st, table, keys, lists, output, p);
    fastcpy::copy_in(output, q, b"end=1\n");
    Ok(n)
}
