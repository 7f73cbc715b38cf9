// The types of lib.rs that are carried over: numbers of expressions, names and scopes, kinds of names,
// pointers, literals and the values of bindings.
//
// It knows the definitions and nothing of a store. What each case of an enum is in the definitions
// stands in specs/.
#![tactic(auto)]

mod counter;
mod expr;
mod ids;
mod kinds;
mod literal;
mod pointer;
mod syntax_kind;

pub use counter::Counter;
pub use expr::{Expr, Item, Pattern};
pub use ids::{BindingValue, ExprId, NameId, NodeId, ScopeId, TextId};
pub use kinds::NameKind;
pub use literal::{
    INFINITY_BITS, LARGEST_INTEGER, Literal, bits_of, float_of, integer_of, value_of,
};
pub use pointer::Pointer;
pub use syntax_kind::SyntaxKind;
