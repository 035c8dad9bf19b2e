// What the store promises of its calls together, on any memory, as theorems. It has no function: the calls stand in
// store_create, store_look and store_append.
//
// `specs/Promises.antt` says it in one record, a field a sentence; `specs/Cases.antt` has a row a case, worked out from
// the definitions that the calls' contracts cite; `proofs/` has the theorems. It uses limits, numbers, spans,
// murmurhash2, memory_arena, records, shared_arena_hashmap, expull_header, expull_append, store_state, store_create,
// store_look and store_append.
#![tactic(auto)]
