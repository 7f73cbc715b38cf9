// What a load brings in first and then only reads: the texts and the nodes of a sheet.
#![tactic(auto)]

mod bring;
mod nodes;

pub use bring::bring_nodes;
pub use nodes::{kid, kid_count, node_flag, node_kind, node_pointer, node_text, syntax_kind};
