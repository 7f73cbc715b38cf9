// The kept references of every name, listed anew from the kept answers.
//
// Of the store's layer: it knows offsets. It takes as many steps as there are expressions and names
// together, so that a change of one text is quick: every expression is put before the list of the name
// that it means, from the last expression down to the first, so that each list comes out ascending, and
// then the lists are written one after the other. While they are linked they lie in the room of the
// items that wait, which nobody reads between loads.
#![tactic(auto)]

mod linking;
mod lists;
mod meaning;

pub use lists::list_references;
