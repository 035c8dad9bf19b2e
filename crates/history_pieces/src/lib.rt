// A lane read in pieces, over a history of calls (document 02, Six).
//
// No code: specs/Promises.antt has the statements, and proofs/ their values, from demand 3 and what a piece is. It uses
// history and lane_pieces.
#![tactic(auto)]
