// What a shift costs (document 02, Fourteen), as theorems.
//
// It has no function. In specs/: `Shift` says what is counted of a history, `Promises` has the statements: the lanes'
// lengths add up to the bytes accepted, the used bytes of the list pages are at most the request's formula, and a store
// that was lent what `lending` tells never refuses a shift that stays within it. proofs/ has their values, of every
// store that an accepted creation made on any lent memory and of every list of calls. It assumes nothing.
//
// It uses limits, numbers, fastcmp, memory_arena, shared_arena_hashmap, expull_header, expull_walk, expull_append,
// store_state, store_create, store_look, store_append, history_lanes, history_names, history and lending.
#![tactic(auto)]
