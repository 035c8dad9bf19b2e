// How long a lookup's walk was (document 02, Ten): what the number beside each answer by name tells, on any memory, and
// how few it is in a store with a history.
//
// No code: specs/Walks.antt has the statements, and proofs/ their values, from the definition of a lookup and from
// demand 3's invariant. It uses murmurhash2, memory_arena, shared_arena_hashmap, store_state, store_look and history.
#![tactic(auto)]
