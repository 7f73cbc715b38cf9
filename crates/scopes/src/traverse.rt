// The two walkers, which call each other: traverse_expr and traverse_bindings of nameres.rs.
//
// A child is walked where its number is below its owner's, which it is in every lowered module; so the
// walk ends whatever the bytes are. All that walks for an expression carries that expression's number.
//
// `store`, `e` and `scope` are no struct: the store is the host's memory, which the walk writes, `e` is what the proof
// that the walk ends counts down, and `scope` is another one inside what opens one.
ghost use Rattle.std.specs.Prelude.{[], ◌∷◌, ◌++◌};
ghost use Rattle.spec.specs.Scopes.{one_or_none, field_defaults, pat_fields, traverse_bindings, traverse_lambda, traverse_expr};
ghost use Rattle.module.specs.Ids.{expr_of, name_of};
ghost use Rattle.layout.specs.Layout.{Long};
ghost use Rattle.layout.specs.Exprs.{children, bindings};
ghost use Rattle.rows.specs.Decoded.{pattern_with};
ghost use Rattle.rows.specs.Readers.{items_at_expr};
ghost use Rattle.scopes.specs.Picking.{picked};
ghost use Rattle.scopes.specs.Walking.{below, Walks, Follows};

use crate::enters::{open_for_bindings, open_for_lambda};
use crate::picks::{Pass, pick_item};
use kept::{open_with, place_expr};
use module::{Expr, ExprId, NameId, Pattern, ScopeId};
use rows::{item_count, read_expr};

// The expression e stands in the scope, and so do its children, but for those in a scope that it opens.
// A With opens one for its body alone; an Assert's body is walked before its condition.
#[cycle(traversal)]
pub fn traverse_expr(store: &mut [u8], e: ExprId, scope: ScopeId)
    requires { Long store.old }
    ensures { Walks scope.0 (λ m. traverse_expr m scope.0 e.0) store.old tt store.new }
{
    place_expr(store, e, scope);
    match read_expr(store, e) {
        Expr::Missing | Expr::Literal(_) | Expr::Reference(_) => {}
        Expr::Apply(f, a) => pair(store, e, f, a, scope),
        Expr::IfThenElse(c, t, f) => {
            child(store, e, c, scope);
            pair(store, e, t, f, scope);
        }
        Expr::Lambda(x, p, b) => traverse_lambda(store, e, x, p, b, scope),
        Expr::LetIn(b) => {
            let inside = traverse_bindings(store, e, scope);
            child(store, e, b, inside);
        }
        Expr::List | Expr::StringInterpolation | Expr::PathInterpolation => {
            walk_items(store, e, Pass::Children, scope);
        }
        Expr::BinOp(l, r, _) => pair(store, e, l, r, scope),
        Expr::AttrSet(_) => {
            traverse_bindings(store, e, scope);
        }
        Expr::UnaryOp(_, x) => child(store, e, x, scope),
        Expr::Select(s, d) => walk_path(store, e, s, d, scope),
        Expr::HasAttr(s) => walk_path(store, e, s, None, scope),
        Expr::With(n, b) => {
            child(store, e, n, scope);
            let inside = open_with(store, scope, e);
            child(store, e, b, inside);
        }
        Expr::Assert(c, b) => pair(store, e, b, c, scope),
    }
}

// Plain inherits are walked outside, all else inside, the sources of inherits too.
#[cycle(traversal)]
fn traverse_bindings(store: &mut [u8], e: ExprId, scope: ScopeId) -> ScopeId
    requires { Long store.old }
    ensures { Walks scope.0 (λ m. traverse_bindings m (below m e.0) (bindings (items_at_expr store.old e.0)) scope.0) store.old result.0 store.new }
{
    walk_items(store, e, Pass::Inherited, scope);
    let inside = open_for_bindings(store, e, scope);
    walk_items(store, e, Pass::Values, inside);
    walk_items(store, e, Pass::Children, inside);
    walk_items(store, e, Pass::Dynamics, inside);
    inside
}

// A function: defaults and body are walked inside.
#[cycle(traversal)]
fn traverse_lambda(
    store: &mut [u8],
    e: ExprId,
    x: Option<NameId>,
    p: Pattern,
    b: ExprId,
    scope: ScopeId,
)
    requires { Long store.old }
    ensures { Walks scope.0 (λ m. traverse_lambda m (below m e.0) (name_of x) (pattern_with p (items_at_expr store.old e.0)) b.0 scope.0) store.old tt store.new }
{
    let inside = open_for_lambda(store, e, x, p, scope);
    walk_defaults(store, e, p, inside);
    child(store, e, b, inside);
}

// A function without a pattern has no fields.
#[cycle(traversal)]
fn walk_defaults(store: &mut [u8], e: ExprId, p: Pattern, scope: ScopeId)
    requires { Long store.old }
    ensures { Follows e.0 scope.0 (field_defaults (pat_fields (pattern_with p (items_at_expr store.old e.0)))) store.old store.new }
{
    match p {
        Pattern::Absent => {}
        Pattern::Closed | Pattern::Ellipsis => walk_items(store, e, Pass::Defaults, scope),
    }
}

// The set, the path and the default of a Select; a HasAttr has no default.
#[cycle(traversal)]
fn walk_path(store: &mut [u8], e: ExprId, set: ExprId, d: Option<ExprId>, scope: ScopeId)
    requires { Long store.old }
    ensures { Follows e.0 scope.0 (set.0 ∷ (children (items_at_expr store.old e.0) ++ one_or_none (expr_of d))) store.old store.new }
{
    child(store, e, set, scope);
    walk_items(store, e, Pass::Children, scope);
    child_if_any(store, e, d, scope);
}

// What the items of e hand on in a pass.
#[cycle(traversal)]
fn walk_items(store: &mut [u8], e: ExprId, pass: Pass, scope: ScopeId)
    requires { Long store.old }
    ensures { Follows e.0 scope.0 (picked pass (items_at_expr store.old e.0)) store.old store.new }
{
    for i in 0..item_count(store, e) {
        let (first, second) = pick_item(store, e, i, pass);
        child_if_any(store, e, first, scope);
        child_if_any(store, e, second, scope);
    }
}

// Two children, in this order.
#[cycle(traversal)]
fn pair(store: &mut [u8], e: ExprId, a: ExprId, b: ExprId, scope: ScopeId)
    requires { Long store.old }
    ensures { Follows e.0 scope.0 (a.0 ∷ b.0 ∷ []) store.old store.new }
{
    child(store, e, a, scope);
    child(store, e, b, scope);
}

// A child that may be absent.
#[cycle(traversal)]
fn child_if_any(store: &mut [u8], e: ExprId, c: Option<ExprId>, scope: ScopeId)
    requires { Long store.old }
    ensures { Follows e.0 scope.0 (one_or_none (expr_of c)) store.old store.new }
{
    if let Some(c) = c {
        child(store, e, c, scope);
    }
}

// A child whose number is below its owner's.
#[cycle(traversal)]
fn child(store: &mut [u8], e: ExprId, c: ExprId, scope: ScopeId)
    requires { Long store.old }
    ensures { Follows e.0 scope.0 (c.0 ∷ []) store.old store.new }
{
    if c.0 < e.0 {
        traverse_expr(store, c, scope);
    }
}
