// What a report of a store with a history says (document 02, One).
//
// No code: specs/Promises.antt has the statement over histories, and proofs/ its value, from demand 3 alone and the
// round trip of the text. It uses history, report_text, report_read and report.
#![tactic(auto)]
