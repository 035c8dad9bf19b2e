// A lane read on from places, over a history of calls (document 02, Six).
//
// No code: specs/Promises.antt has the statement, and proofs/ its value, from demand 3 (no block moves) and what a
// piece from a place of the lane's own is. It uses history, history_pieces and lane_places.
#![tactic(auto)]
