// The refusals, each with its number (docs/RULES.md, "Refused because of the input" and "Refused because of the state").
//
// A refusal is a number and a place. Here it has a name, and its number is asked for where it leaves for a host. What it
// is refused for is said where it is refused: the sheet's lines, the walk, the state of a store.
#![tactic(auto)]

mod refusal;

pub use refusal::Refusal;
