// The plain second store, for a service laptop (document 02, Eleven): the record as a flat run in one lent buffer, an
// entry for each accepted append, in order of arrival. The caller keeps the used count, which goes by value.
//
// It promises, for any buffer, any used count and any bytes: each call ends, stays inside what is lent, and answers or
// refuses by a number, exactly as specs/Calls.antt says; a refusal changes no lent byte. specs/Promises.antt has what
// any history of appends comes to. It uses limits, numbers (its laws of tests), spans (parts of memory, in
// definitions), fastcmp (laws of names), entries and flat_walk.
#![tactic(auto)]

pub mod look;
pub mod write;

ghost use Rattle.std.specs.Prelude.{◌≡◌};
ghost use Rattle.flat_store.specs.declared.NotRead.TheVariants.{Refused};

use limits::Refusal;

// Why a reading refuses: the output is shorter than the lane (8, told with the lane's length), or as any call by name.
#[derive(Clone, Copy, Debug, PartialEq, Eq)]
pub enum NotRead {
    TooShort(u64),
    Refused(Refusal),
}

impl From<Refusal> for NotRead {
    ghost from_gives = { λ r e. e ≡ Refused r };

    fn from(r: Refusal) -> NotRead {
        NotRead::Refused(r)
    }
}
