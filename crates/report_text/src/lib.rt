// The shift report as text (document 02, One): what it is, and what reads as what.
//
// specs/Text.antt says what the text of lanes is, specs/Reader.antt what a text reads as, line by line, both in the
// same fixed words; specs/Promises.antt has that the text of lanes reads back as those lanes in order. The code here
// reads what stands behind a word: decimals and hex. It uses limits, numbers and fastcmp.
#![tactic(auto)]

pub mod fields;
