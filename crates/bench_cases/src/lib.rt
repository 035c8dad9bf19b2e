// The twelve bench cases of document 01 that are marked P, proved together: specs/Bench.antt has one table and one
// statement. specs/Sizes.antt has small cases of document 02, Nine.
//
// It promises that the definitions which the contracts cite give the paper's values; it has no function. It uses
// limits, murmurhash2, vint, memory_arena, shared_arena_hashmap, expull_header, expull_append, store_state,
// store_create, store_look and store_append.
#![tactic(auto)]
