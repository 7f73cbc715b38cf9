// The sets that are being merged, in a store: what MergingSet is in lower.rs.
//
// Sets and their entries are two tables used as stacks; beside them lies the run, the entries' numbers
// in the order of sets, classes and keys, so that a key is found by halving.
#![tactic(auto)]

mod add;
mod entries;
mod entry;
mod entry_rows;
mod run;
mod sets;
mod standing;

pub use add::add_entry;
pub use entries::{entry_at, entry_count, set_nested, set_value};
pub use entry::{Entry, SetId};
pub use run::{entry_of, find, first_of};
pub use sets::{cut, open_set, set_count, set_name_kind, set_pointer};
