// What a node says of itself and of its kids: its items one by one, which key an attribute is, and the
// value of a Float or an Integer. The functions of ast_utils.rs, over the nodes in a store.
#![tactic(auto)]

mod ast_utils;
mod items;
mod literals;

pub use ast_utils::{
    AttrKind, DEPTH, attr_kind, flatten_paren, get_str_literal, has_interpolation,
    name_kind_of_set, name_of_ident,
};
pub use items::next_item;
pub use literals::literal_of;
