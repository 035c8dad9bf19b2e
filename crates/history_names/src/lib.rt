// The names of a table that a history made, as theorems: a lookup finds exactly the names that were entered, entering
// adds one name and loses none, growth keeps all of them, and listing gives each once.
//
// It has no function. `specs/Table.antt` says what it is for words to be such a table, and what entering and growing
// leave; `specs/Listing.antt` what a listing collects; `proofs/` has the theorems, over the definitions that
// shared_arena_hashmap's contracts cite. The hash is any function of the name: names with equal hashes are told apart
// by their key bytes. It uses limits, numbers, spans, fastcmp, memory_arena and records, shared_arena_hashmap.
#![tactic(auto)]
