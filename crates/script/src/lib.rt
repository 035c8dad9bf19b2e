// A script of commands: the lines of an input, and the table that says how commands are written.
//
// It promises of any bytes that each call ends and stays inside what is lent, and asks nothing of its callers. It uses
// text.
#![tactic(auto)]

pub mod lines;
pub mod rows;
