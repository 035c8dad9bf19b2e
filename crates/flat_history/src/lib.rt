// The store and the flat store are one record (document 02, Eleven), as theorems.
//
// It has no function. In specs/: `Alike` says what answering alike is; `Agreement` that two stores whose logs of
// accepted appends are equal are the same record, whatever else was asked of them; `Cases` has a small history.
// `agreement` of proofs/Agree.antt proves it, for pages above 65,536 bytes, of every store that an accepted creation
// made on any lent memory and every lent buffer, from demand 3 of both. It assumes nothing. It uses limits, entries,
// memory_arena, expull_header and expull_append (rooms that an append may lack), shared_arena_hashmap (for the case),
// store_state, store_create, store_look, store_append, history and flat_store.
#![tactic(auto)]
