// Lines of words: numbers and bytes as a script has them. It reads nothing itself: each call is given a line.
//
// It promises of any bytes that each call ends and stays inside what is lent, and asks nothing of its callers. It uses
// nothing.
#![tactic(auto)]

mod expand;
pub mod fault;
pub mod words;
