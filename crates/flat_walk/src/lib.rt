// A run of entries gone through from the front, for one name: counted, and copied.
//
// It promises, of any run, whether its entries go to its very end, and how many bytes those of the name have together,
// also what stands behind a match; and of an output with room that just their bytes come to its front, in order.
// specs/Walk.antt says it entry by entry, and proofs/Joined.antt that it comes to what the log comes to. It uses limits
// (why a call refuses), spans (parts of memory, in definitions), fastcmp, fastcpy and entries.
#![tactic(auto)]

ghost use Rattle.std.specs.Prelude.{◌≡◌, ◌+◌, ◌≤◌, ◌<◌, ◌^◌, length, None};
ghost use Rattle.entries.specs.Form.{entries_of};
ghost use Rattle.flat_walk.specs.Walk.{count, tally_on, walked, place_on, output_on, place_in, output_in};

use limits::Refusal;

// What was met of a name so far, how many bytes if an entry at all, with an entry more of n bytes.
#[tactic(auto, unfolding(crate::specs::Walk::tally_on))]
fn tally_entry(met: Option<u64>, name: &[u8], other: &[u8], n: usize) -> Option<u64>
    requires { count met + n < 2 ^ 64 }
    ensures { result ≡ tally_on name.now other.now n met }
{
    if fastcmp::fast_short_slice_compare(name, other) {
        return Some(met.unwrap_or(0) + n as u64);
    }
    met
}

// Counts the bytes of all entries of a name, if there is one; where an entry overruns the run, it is damaged.
pub fn walk_run(run: &[u8], name: &[u8]) -> Result<Option<u64>, Refusal>
    ensures { result ≡ walked name.now (length run.now) (entries_of run.now) None }
{
    let mut met = None;
    let mut at = 0;
    // each entry tells where the next one is, so no `for`
    while at < run.len() {
        let Some(e) = entries::entry_at(run, at) else {
            return Err(Refusal::Damage);
        };
        met = tally_entry(met, name, &run[at + 2..e.name_end], e.to - e.from);
        at = e.to;
    }
    Ok(met)
}

// An entry's bytes to a place of the output, where its name is the one asked for; and the place behind them.
#[tactic(auto, unfolding(crate::specs::Walk::place_on, crate::specs::Walk::output_on))]
fn copy_entry(name: &[u8], other: &[u8], bytes: &[u8], output: &mut [u8], done: usize) -> usize
    requires { place_on name.now other.now (length bytes.now) done ≤ length output.old }
    ensures place { result ≡ place_on name.now other.now (length bytes.now) done }
    ensures output { output.new ≡ output_on name.now other.now bytes.now done output.old }
{
    if fastcmp::fast_short_slice_compare(name, other) {
        fastcpy::copy_in(output, done, bytes);
        return done + bytes.len();
    }
    done
}

// Copies the bytes of all entries of a name to the front of the output.
pub fn copy_run(run: &[u8], name: &[u8], output: &mut [u8])
    requires { place_in name.now (entries_of run.now).entries 0 ≤ length output.old }
    ensures { output.new
        ≡ output_in name.now (entries_of run.now).entries 0 output.old }
{
    let mut at = 0;
    let mut done = 0;
    // as above, no `for`
    while at < run.len() {
        let Some(e) = entries::entry_at(run, at) else {
            return;
        };
        done = copy_entry(
            name,
            &run[at + 2..e.name_end],
            &run[e.from..e.to],
            output,
            done,
        );
        at = e.to;
    }
}
