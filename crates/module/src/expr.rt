// An expression, but for its lists: what lib.rs keeps in vectors inside an Expr lies beside it as items.
use crate::ids::{BindingValue, ExprId, NameId, TextId};
use crate::literal::Literal;

// Whether a Lambda has a pattern, and whether that ends in an ellipsis. The three cases have names: an `Option<bool>`
// would have to say beside each use what its bool is.
#[derive(Clone, Copy)]
pub enum Pattern {
    Absent,
    Closed,
    Ellipsis,
}

#[derive(Clone, Copy)]
pub enum Expr {
    Missing,
    // Function, argument.
    Apply(ExprId, ExprId),
    // Condition, then, else.
    IfThenElse(ExprId, ExprId, ExprId),
    Literal(Literal),
    // Parameter, pattern, body; items: fields.
    Lambda(Option<NameId>, Pattern, ExprId),
    // Body; items: bindings.
    LetIn(ExprId),
    // Items: children.
    List,
    // Left, right, operator. Operators are numbers here as in the definitions: nobody looks at which one it is.
    BinOp(ExprId, ExprId, u32),
    // Whether it is rec; items: bindings.
    AttrSet(bool),
    // Operator, operand.
    UnaryOp(u32, ExprId),
    Reference(TextId),
    // Set, default; items: the path's attributes.
    Select(ExprId, Option<ExprId>),
    // Set; items: the path's attributes.
    HasAttr(ExprId),
    // Namespace, body.
    With(ExprId, ExprId),
    // Condition, body.
    Assert(ExprId, ExprId),
    // Items: parts.
    StringInterpolation,
    PathInterpolation,
}

// One of an expression's items.
#[derive(Clone, Copy)]
pub enum Item {
    // An item of a list, an attribute of a path, an interpolated part, a source of an inherit.
    Child(ExprId),
    // A literal part.
    Text(TextId),
    // A field of a pattern: its name and its default.
    Field(Option<NameId>, Option<ExprId>),
    Static(NameId, BindingValue),
    // Key, value.
    Dynamic(ExprId, ExprId),
}
