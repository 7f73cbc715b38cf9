// nameres.rs, from compute_name_resolution on: the kept answer of every Reference and the kept references of every
// name.
//
// It knows no byte offset. Every contract is an equation with the definitions of what a store keeps.
#![tactic(auto)]

mod resolution;
mod whole;

pub use resolution::compute_name_resolution;
pub use whole::keep_module;
