// Demand 3 over readings: what a lane of readings reads back as after a history (document 02, Four).
//
// No code: specs/Steps.antt says what a history with readings is and what was accepted for a lane in it,
// specs/Demand.antt has the statement, and proofs/ its value, from demand 3 alone and the round trip of readings'
// bytes. It uses history, signed, reading_run and readings.
#![tactic(auto)]
