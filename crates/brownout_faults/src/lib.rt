// The faults of a store's memory, and what the brownout check says of it (document 02, Eight), as definitions.
//
// No code but the answer's type. specs/Check.antt says for any state and any lent memory which bucket is the first
// faulty one and which of its faults the first, bucket by bucket in the paper's order; specs/Promises.antt what follows
// for a memory that is called sound: no call by name answers 4 on it, an append neither, whoever wrote it. The code is
// crate brownout's. It uses store's definitions, and laws of history_lanes and history_names.
#![tactic(auto)]

// What the check says: sound; the first faulty bucket and its first fault, 1 to 7; a key count that differs; or a
// refusal's number and what it tells.
#[derive(Clone, Copy)]
pub enum Checked {
    Sound,
    Faulty(usize, u32),
    Miscounted,
    Refused(u32, u64),
}
