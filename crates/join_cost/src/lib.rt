// What a joined store costs (document 02, Fourteen), as theorems.
//
// It has no function. specs/Promises.antt has the statements: a joined store has accepted its own bytes and those of
// the lanes that went across, and costs what every history costs; and a join onto a store that was lent enough for both
// halves is never stopped. proofs/ has their values, of every two stores that accepted creations made and of any calls
// on each. It assumes nothing.
//
// It uses join_history, shift_cost, join, history, and the crates of their definitions.
#![tactic(auto)]
