// Theorems on one lane's list: what an append does to its blocks and to everything else in the list pages, and what a
// reading, a length and a found block then give.
//
// It has no function. `specs/Lane.antt` says what a lane is, beside the addresses of its blocks, and what an append
// leaves; the theorems are in proofs/, over the definitions of the list's crates. It uses `limits`, `numbers`, `spans`,
// `memory_arena`, `expull_header`, `expull_walk` and `expull_append`, and assumes nothing.
#![tactic(auto)]
