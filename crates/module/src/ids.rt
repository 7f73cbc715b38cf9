// docs/RULES.md, "Numbers": "Expression, name and scope numbers are three sorts": each a type of its own, as Id<Expr>,
// Id<Name> and Id<ScopeData>, so that a name's number can't be taken for an expression's. Nodes of the sheet and texts
// of the store are numbered too.
#[derive(Clone, Copy)]
pub struct NodeId(pub u32);

#[derive(Clone, Copy)]
pub struct ExprId(pub u32);

#[derive(Clone, Copy, PartialEq, Eq)]
pub struct NameId(pub u32);

#[derive(Clone, Copy)]
pub struct ScopeId(pub u32);

#[derive(Clone, Copy)]
pub struct TextId(pub u32);

// The value of a static binding.
#[derive(Clone, Copy)]
pub enum BindingValue {
    Expr(ExprId),
    Inherit(ExprId),
    InheritFrom(ExprId),
}
