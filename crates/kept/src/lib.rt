// What a store keeps beside the module: scopes, answers, references, and how much of the change room is spent.
//
// Every contract is an equation on what the bytes say, and says what else stays as it was.
#![tactic(auto)]

mod answers;
mod changes;
mod clearing;
mod holding;
mod limits;
mod references;
mod scopes;

pub use answers::{kept_answer, set_answer};
pub use changes::{set_spent, spent};
pub use clearing::clear_rows;
pub use holding::scope_holding;
pub use references::{
    add_reference, clear_references, end_references, reference_at, reference_count,
};
pub use scopes::{
    clear_scopes, enter_name, entered_at, entered_count, open_root, open_scope, open_with,
    place_expr, scope_count, scope_of, scope_parent, scope_with,
};
