// The module in a store is read: expressions, items, names and diagnostics from their rows, and what a pointer names.
// How an item lies in its row stands here too, beside ItemRow; store writes it.
//
// Every contract is an equation on what the bytes say, for any bytes: a row gives something whatever it holds, and a
// number out of range what the definitions give.
#![tactic(auto)]

mod decode;
mod item_rows;
mod read_counts;
mod read_diagnostics;
mod read_exprs;
mod read_names;
mod row;
mod source_map;

pub use decode::joined;
pub use read_counts::{diagnostic_count, entry, expr_count, lost_count, name_count};
pub use read_diagnostics::{Diagnostic, lost_pointer, read_diagnostic};
pub use read_exprs::{
    REFERENCE, expr_pointer, item_count, read_expr, read_item, reference_place, reference_text,
};
pub use read_names::{name_kind_of, name_pointer, name_text};
pub use row::{ItemRow, Row};
pub use source_map::{expr_for_node, name_for_node};
