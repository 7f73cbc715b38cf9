// An entry of a set that is being merged: MergingEntry of the definitions.
use module::{BindingValue, ExprId, NameId, TextId};

// Sets are numbered from 0 as they are opened.
#[derive(Clone, Copy, PartialEq, Eq, PartialOrd, Ord)]
pub struct SetId(pub u32);

#[derive(Clone, Copy)]
pub enum Entry {
    // Set, key, its name, its nested set, its value.
    Static(SetId, TextId, NameId, Option<SetId>, Option<BindingValue>),
    // Set, one of its inherit_froms.
    Source(SetId, ExprId),
    // Set, key, value.
    Dynamic(SetId, ExprId, ExprId),
}
