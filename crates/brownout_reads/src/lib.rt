// What the brownout check calls sound answers damage to no piece and to no readings either (document 02, Eight over
// Four and Six).
//
// No code: specs/Promises.antt has the statement, and proofs/ its value, from what sound promises of a reading. It uses
// brownout_faults, lane_pieces and readings.
#![tactic(auto)]
