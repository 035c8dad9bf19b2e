// A store with a history is called sound by the brownout check (document 02, Eight).
//
// No code: specs/Promises.antt has the statement over histories, and proofs/ its value, from the invariant by which
// history proves demand 3. It uses history, brownout_faults, and brownout_kept for how a memory without fault lies;
// that the code of crate brownout says the same is its contract.
#![tactic(auto)]
