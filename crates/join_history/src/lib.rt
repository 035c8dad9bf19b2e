// What a join of two stores comes to (document 02, Thirteen), as theorems.
//
// It has no function. specs/Promises.antt has the statements: on any two memories a join is its appends played, so that
// every theorem about histories holds after it; with histories on both sides each lane reads as its own bytes and then
// the other half's. proofs/ has their values. It assumes nothing.
//
// It uses join, history, report_history (the lanes of a report are those that a join meets), and the crates of their
// definitions.
#![tactic(auto)]
