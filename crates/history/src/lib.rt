// Demand 3: what a whole history of calls on a store comes to, as theorems.
//
// It has no function. In specs/: `Demand` has each sentence of demand 3 with its statement. Below it, `History` says
// what a history is, its log of accepted appends, and what the log comes to, name by name; `Due` the number that an
// append is due; `Numbers` that of every call; `Promises` what the calls answer; `Frames` what an accepted append
// leaves alone, and where a byte may differ; `Sound` what a history leaves in the lent memory; `Cases` has small
// histories worked out. `demand_3` of proofs/Demand.antt proves it, of every store that an accepted creation made on
// any lent memory and of every list of calls, over the very definitions that the store's contracts cite. It assumes
// nothing.
//
// It uses limits, numbers, spans, fastcmp, murmurhash2, memory_arena, records, shared_arena_hashmap, expull_header,
// expull_walk, expull_append, store_state, store_create, store_look, store_append, store, history_lanes and
// history_names.
#![tactic(auto)]
