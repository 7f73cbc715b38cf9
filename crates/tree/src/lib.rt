// The tree of a syntax sheet, walked depth first: refusals 4 to 7 of document 01 (docs/RULES.md, "The walk").
//
// A second pass over the sheet's bytes. It knows the lines through the crate sheet, which kinds a place
// takes, and how deep a tree may be; it knows no store and writes nothing. A node's number is its place
// in the walk or the sheet is refused, so the pass goes forward and keeps no rows.
// Every contract is about the definitions in the crate spec (Kinds.antt, Tree.antt).
#![tactic(auto)]

mod judging;
mod nodes;
mod places;
mod slots;
mod walk;

pub use judging::judge;
pub use places::{Places, count_fits, places_of};
pub use slots::{Slot, takes};
