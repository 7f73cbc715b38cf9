// Reads a syntax sheet forward, line by line, or refuses it: refusals 1 to 3 of document 01, and 31 to 33, which say
// what is wrong with a flag, a text or a range (docs/RULES.md, "Lines refused").
//
// It knows the sheet's bytes and the rules of the kinds for flags and texts, and nothing of a tree
// or a store. Reading writes nothing: what a reader gives are numbers, places and spans of the sheet.
// For those who come after, `next_kid` goes through a list of kids, and `decode_text` writes the
// bytes of a text into a slice that is lent to it. Every contract is an equation with the definitions
// in the crate spec (Sheet.antt, Kinds.antt).
#![tactic(auto)]

mod decimals;
mod faults;
mod kids;
mod kinds;
mod lines;
mod nodes;
mod numbers;
mod position;
mod sheets;
mod texts;

pub use faults::{Fault, Malformed, Refused, SheetRefused};
pub use kids::next_kid;
pub use kinds::{TextRule, flags, text_rule};
pub use nodes::Node;
pub use position::{Position, Span};
pub use sheets::read_sheet;
pub use texts::decode_text;
