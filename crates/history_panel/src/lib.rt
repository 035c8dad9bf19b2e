// The panel (document 02, Four and Six together): a lane of readings, read in pieces that are fed to the number reader.
//
// No code: specs/Panel.antt has the statement, and proofs/ its value, from what was accepted for the lane and what the
// number reader makes of bytes cut anywhere. It uses history_readings, history_pieces and number_pieces.
#![tactic(auto)]
