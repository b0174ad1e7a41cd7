// What the schema's elements hold (document 01, "KeyDescription"): elements opened, numbers, octet strings, sets, roots of trust
// and the first six of the eight. crates/reader has the lists of fields, and the whole.
//
// A reader takes a holder's bytes, those from the first to its end, and a place in them. A struct of the two would be made anew
// for each element, since the next place comes with the answer (`Taken`). Tags are numbers: any identifier is an answer.
#![tactic(auto)]

pub mod content;
pub mod element;
pub mod head;
pub mod leaf;
pub mod root;
pub mod set;
pub mod taken;
