// Merging: impl MergingSet of lower.rs, but for what lowers a value.
//
// It knows no byte offset. Here too is how a step of the code is a step of the definitions, and what
// it may take of a store's room (specs/).
#![tactic(auto)]

mod finish;
mod inherit;
mod merge;

pub use finish::{finish_nested, finish_set};
pub use inherit::inherit_value;
pub use merge::{
    add_dynamic, add_source, get_or_create_nested_static, merge_static_value, nested_at,
};
