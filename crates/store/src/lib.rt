// The module in a store is written: expressions, items, names and diagnostics are appended, a name or a Reference gets
// another text, and a store is emptied. The crate rows reads what stands there.
//
// Above it every function speaks of expressions and names. Every contract is an equation on
// what the bytes say, and an append tests its limit.
#![tactic(auto)]

mod codes;
mod exprs;
mod header;
mod held;
mod names;

pub use exprs::{alloc_expr, alloc_missing, push_item, set_reference_text, waiting_count};
pub use header::{clear, set_entry};
pub use names::{add_duplicate, alloc_name, set_name_text};
