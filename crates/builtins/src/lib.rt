// The names that are there without a definition, and which of them a text is.
//
// It knows how a text is compared, and nothing of scopes.
#![tactic(auto)]

mod lookup;
mod table;

pub use lookup::lookup_global_builtin;
