// How a call finds the store: long enough, sound, with something loaded (refusals 21, 22 and 23).
//
// The check reads the rows in use once, for any bytes, and its answer is an equation with the
// definition of soundness (specs/Sound.antt), which is docs/STORE.md's lists of numbers.
#![tactic(auto)]

mod conditions;
mod counted;
mod counts;
mod exprs;
mod fields;
mod firsts;
mod items;
mod lists;
mod names;
mod scopes;
mod uses;
mod whole;

pub use conditions::Unfit;
pub use whole::{condition, sound};
