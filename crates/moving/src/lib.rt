// What a new text moves: the References whose answer is another then, counted by reading alone, as if the text were set;
// and these answers moved and listed.
//
// A changed Reference moves its own answer only; a changed name those of References that bear its old or its new text
// and lie inside the scope that holds it. Nothing else is resolved again. It knows no byte offset.
#![tactic(auto)]

mod by_name;
mod by_reference;
mod moved;
mod named;
mod place;

pub use place::{Place, count_moved, move_answers_of};
