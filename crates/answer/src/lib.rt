// What a Reference means: the answer, its word in a store, its number and value for a host, the name it means.
//
// One answer has three forms, and all who keep, read or tell one turn it here. It knows no byte offset. The Withs of an
// answer are no part of it: they are those of the scopes around the Reference.
#![tactic(auto)]

mod answer;
mod told;
mod word;

pub use answer::{Answer, name_of_answer};
pub use told::{answer_number, answer_value};
pub use word::answer_word;
