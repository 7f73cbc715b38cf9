// Lowering: lower.rs. From the nodes in a store to numbered expressions, names, diagnostics and the
// lost list, as the definitions have them.
//
// It knows no byte offset. Functions that call each other stand in one file, ctx.rt, with shorter names
// than in lower.rs: the proof of a cycle of calls is named after all its members, and crates above load
// what is proved of it only from modules whose full names have less than 250 bytes; else they check it
// again. The comment at a function says which it is.
#![tactic(auto)]

mod ctx;
mod leaves;
mod reads;
mod whole;

pub use ctx::expr as lower_expr;
pub use whole::lower;
