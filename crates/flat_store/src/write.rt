// The append.
ghost use Rattle.std.specs.Prelude.{◌≡◌, true, ◌≤◌, length};
ghost use Rattle.limits.specs.Limits.{name_limit};
ghost use Rattle.limits.specs.Refusals.{flat_appending, permitted};
ghost use Rattle.flat_store.specs.Calls.{out, has_room, append_of};
ghost use Rattle.flat_store.specs.Said.{said_appended};

use limits::Refusal;

// Whether an entry can follow the used ones.
fn has_room(buffer: &[u8], used: usize, name: &[u8], bytes: &[u8]) -> bool
    requires { (used ≤ length buffer.now) × (length name.now ≤ name_limit) }
    ensures { result
        ≡ has_room (length buffer.now) used (length name.now) (length bytes.now) }
{
    bytes.len() <= entries::BYTE_LIMIT && used + (name.len() + bytes.len() + 6) <= buffer.len()
}

// An append: one entry more behind the used ones, and the used count then; or a refusal and nothing changed.
#[tactic(auto, unfolding(crate::specs::Calls::append_of))]
pub fn append(buffer: &mut [u8], used: usize, name: &[u8], bytes: &[u8]) -> Result<usize, Refusal>
    ensures settled { out result buffer.new
        ≡ append_of buffer.old used name.now bytes.now }
    ensures numbered { permitted flat_appending (said_appended result) ≡ true }
{
    if buffer.len() < used {
        return Err(Refusal::NotWhole);
    }
    if limits::NAME_LIMIT < name.len() {
        return Err(Refusal::NameTooLong);
    }
    if name.is_empty() {
        return Err(Refusal::NoName);
    }
    if !has_room(buffer, used, name, bytes) {
        return Err(Refusal::BufferFull);
    }
    entries::put_entry(buffer, used, name, bytes);
    Ok(used + (name.len() + bytes.len() + 6))
}
