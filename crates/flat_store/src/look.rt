// Lookup, length and reading.
ghost use Rattle.std.specs.Prelude.{◌≡◌, true};
ghost use Rattle.limits.specs.Refusals.{flat_looking_up, flat_measuring, flat_reading, permitted};
ghost use Rattle.flat_store.specs.Calls.{lookup_of, length_of, reading, read_of};
ghost use Rattle.flat_store.specs.Said.{said_lookup, said_length, said_read};

use crate::NotRead;
use limits::Refusal;

// A name's length, if it stands: 2, 3, absent of the empty name; then all used entries are gone through.
#[tactic(auto, unfolding(crate::specs::Calls::length_of, crate::specs::Calls::held_of))]
pub fn length(buffer: &[u8], used: usize, name: &[u8]) -> Result<Option<u64>, Refusal>
    ensures settled { result ≡ length_of buffer.now used name.now }
    ensures numbered { permitted flat_measuring (said_length result) ≡ true }
{
    if buffer.len() < used {
        return Err(Refusal::NotWhole);
    }
    if limits::NAME_LIMIT < name.len() {
        return Err(Refusal::NameTooLong);
    }
    if name.is_empty() {
        return Ok(None);
    }
    flat_walk::walk_run(&buffer[..used], name)
}

// Whether a name stands.
pub fn lookup(buffer: &[u8], used: usize, name: &[u8]) -> Result<bool, Refusal>
    ensures settled { result ≡ lookup_of buffer.now used name.now }
    ensures numbered { permitted flat_looking_up (said_lookup result) ≡ true }
{
    let held = length(buffer, used, name)?;
    Ok(held.is_some())
}

// A name's bytes, if it stands, to the front of the output, and no byte after them; how many. The output's length
// matters only behind all entries.
pub fn read(
    buffer: &[u8],
    used: usize,
    name: &[u8],
    output: &mut [u8],
) -> Result<Option<u64>, NotRead>
    ensures settled { reading result output.new
        ≡ read_of buffer.now used name.now output.old }
    ensures numbered { permitted flat_reading (said_read result) ≡ true }
{
    let Some(n) = length(buffer, used, name)? else {
        return Ok(None);
    };
    if (output.len() as u64) < n {
        return Err(NotRead::TooShort(n));
    }
    flat_walk::copy_run(&buffer[..used], name, output);
    Ok(Some(n))
}
