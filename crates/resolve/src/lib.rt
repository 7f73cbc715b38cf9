// What a name means where it is used: resolve_name of nameres.rs, over any bytes of a store.
//
// It reads scopes, names and texts through the crates below and knows no offset. The search has the text that it seeks
// from a lent slice, and one name's text too: so it can say what a name would mean before a text is written anywhere.
//
// No number that a store holds is trusted: a scope's parents are followed no further than its own number says, so that
// every walk ends, also where they go round.
#![tactic(auto)]

mod chain;
mod definitions;
mod names;
mod nesting;
mod references;
mod search;
mod with_list;
mod withs;

pub use definitions::defined_in;
pub use names::{resolve_as, resolve_name, resolve_renamed};
pub use nesting::within;
pub use references::list_kept_references;
pub use search::innermost;
pub use with_list::list_withs;
pub use withs::has_with;
