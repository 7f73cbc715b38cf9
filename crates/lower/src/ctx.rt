// Lowering and merging, which call each other: impl LowerCtx and impl MergingSet of lower.rs. What is in quotes is a
// rule of docs/RULES.md, "Lowering".
//
// `depth` is how many levels of nodes are left; nodes of an accepted sheet are never deeper. Lists wait
// as items until the expression that has them is allocated.
//
// `store`, `depth` and the set `s` are no struct: each function has another choice of them, so that a struct would be
// taken apart and built anew at each call.
//
// Six loops go over the kids of a node and take those that are there. No function does them in one with a closure or an
// iterator as its parameter: each body calls a function of this cycle, and that the calls end can't be proved of
// functions of one cycle that differ in their type parameters.
#![tactic(auto, unfolding(rows::specs::Decoded::ValidExpr, module::specs::Literals::Valid))]

ghost use Rattle.std.specs.Prelude.{◌≡◌, ◌∷◌, map, suc, ◌+◌, ◌≤◌};
ghost use Rattle.spec.specs.Keys.{items, kind};
ghost use Rattle.spec.specs.Steps.{each};
ghost use Rattle.spec.specs.Merge as merging;
ghost use Rattle.spec.specs.Merge.{lower_opt, push_dynamic, merge_keyed, merge_attr_value, merge_nested_attr_value, merge_attrpath_val, inherit_attr, inherit_source, merge_inherit, merge_entry, merge_entries};
ghost use Rattle.spec.specs.Lower as lowering;
ghost use Rattle.spec.specs.Lower.{lower_if_there, lower_part, lower_string, lower_path, lower_attr, lower_attrpath_opt, lower_field, lower_if_else, lower_select, lower_has_attr, lower_lambda, lower_let_in, lower_list, lower_bin_op, lower_attr_set, lower_unary_op, merge_bindings};
ghost use Rattle.module.specs.Ids.{node_of, expr_of, pointer_of};
ghost use Rattle.module.specs.Kinds.{kind_of};
ghost use Rattle.module.specs.SyntaxKinds.{number_of_syntax};
ghost use Rattle.layout.specs.Layout.{Long};
ghost use Rattle.layout.specs.Nodes.{nodes_of};
ghost use Rattle.layout.specs.Texts.{text_in};
ghost use Rattle.layout.specs.Exprs.{child};
ghost use Rattle.merge.specs.Room.{price, nothing, one_expr, one_set, own_node};
ghost use Rattle.merge.specs.Lowers.{Lowering, Collecting};
ghost use Rattle.merge.specs.Finishes.{binding_items};
ghost use Rattle.lower.specs.Sizes as room;
ghost use Rattle.lower.specs.Sizes.{sized, below, sizes, heft};
ghost use Rattle.lower.specs.Parts.{lower_at, merge_at, LowersNode, form_of, part_item, field_item, nested_expr, one};
ghost use Rattle.lower.specs.Reads.{attrs_from, attrs_left};

use crate::leaves::{
    alloc_lone, attr_name, ident, literal, lower_name, missing_node, pair_form, uri,
};
use crate::reads::{Param, Rest, first_entry, into_set, opened_now, param_of};
use intake::{kid, kid_count, node_flag, node_pointer, node_text, syntax_kind};
use keys::{AttrKind, attr_kind, get_str_literal, has_interpolation, name_kind_of_set};
use merge::{
    add_dynamic, add_source, finish_nested, finish_set, get_or_create_nested_static, inherit_value,
    merge_static_value,
};
use module::{
    BindingValue, Expr, ExprId, Item, Literal, NameKind, NodeId, Pointer, SyntaxKind, TextId,
};
use open_sets::{SetId, cut, open_set};
use store::{alloc_expr, alloc_missing, push_item, waiting_count};

// lower_expr and lower_expr_inner: by the kind of the node.
#[cycle(exprs)]
pub fn expr(store: &mut [u8], depth: u32, n: NodeId) -> ExprId
    requires { Long store.old }
    ensures { LowersNode depth n.0 store.old result.0 store.new }
{
    if depth == 0 {
        return alloc_missing(store);
    }
    let d = depth - 1;
    let Some(kind) = syntax_kind(store, n) else {
        return missing_node(store, n);
    };
    match kind {
        SyntaxKind::Apply | SyntaxKind::With | SyntaxKind::Assert => pair(store, d, n, kind),
        SyntaxKind::IfElse => cond(store, d, n),
        SyntaxKind::Select => get(store, d, n),
        SyntaxKind::HasAttr => has(store, d, n),
        SyntaxKind::Str => str(store, d, n),
        SyntaxKind::Path => path(store, d, n),
        SyntaxKind::Float | SyntaxKind::Integer => literal(store, n, kind),
        SyntaxKind::Uri => uri(store, n),
        SyntaxKind::Lambda => lambda(store, d, n),
        SyntaxKind::LetIn => let_in(store, d, n),
        SyntaxKind::List => list(store, d, n),
        SyntaxKind::BinOp => binop(store, d, n),
        SyntaxKind::AttrSet => set(store, d, n),
        SyntaxKind::UnaryOp => unop(store, d, n),
        SyntaxKind::Ident => ident(store, n),
        SyntaxKind::Paren | SyntaxKind::Root => {
            let place = kid(store, n, 0);
            opt(store, d, place)
        }
        _ => missing_node(store, n),
    }
}

// lower_expr_opt
#[cycle(exprs)]
fn opt(store: &mut [u8], depth: u32, place: Option<NodeId>) -> ExprId
    requires { Long store.old }
    ensures { Lowering 0 (heft (node_of place)) one_expr (λ nodes. lower_opt nodes (lower_at depth nodes) (merge_at depth nodes) (node_of place)) store.old result.0 store.new }
{
    match place {
        Some(n) => expr(store, depth, n),
        None => alloc_missing(store),
    }
}

// An expression that may be left out.
#[cycle(exprs)]
fn there(store: &mut [u8], depth: u32, place: Option<NodeId>) -> Option<ExprId>
    requires { Long store.old }
    ensures { Lowering 0 (λ nodes. room.place nodes (node_of place)) nothing (λ nodes. lower_if_there nodes (lower_at depth nodes) (merge_at depth nodes) (node_of place)) store.old (expr_of result) store.new }
{
    let n = place?;
    Some(expr(store, depth, n))
}

// Apply, With and Assert.
#[cycle(exprs)]
fn pair(store: &mut [u8], depth: u32, n: NodeId, kind: SyntaxKind) -> ExprId
    requires { Long store.old }
    ensures { Lowering 0 (below n.0) own_node (λ nodes. lowering.pair nodes (lower_at depth nodes) (merge_at depth nodes) (form_of (number_of_syntax kind)) n.0) store.old result.0 store.new }
{
    let first = kid(store, n, 0);
    let second = kid(store, n, 1);
    let p = node_pointer(store, n);
    let a = opt(store, depth, first);
    let b = opt(store, depth, second);
    alloc_lone(store, pair_form(kind, a, b), p)
}

// IfElse.
#[cycle(exprs)]
fn cond(store: &mut [u8], depth: u32, n: NodeId) -> ExprId
    requires { Long store.old }
    ensures { Lowering 0 (below n.0) own_node (λ nodes. lower_if_else nodes (lower_at depth nodes) (merge_at depth nodes) n.0) store.old result.0 store.new }
{
    let first = kid(store, n, 0);
    let second = kid(store, n, 1);
    let third = kid(store, n, 2);
    let p = node_pointer(store, n);
    let cond = opt(store, depth, first);
    let then_body = opt(store, depth, second);
    let else_body = opt(store, depth, third);
    alloc_lone(store, Expr::IfThenElse(cond, then_body, else_body), p)
}

// Select: what is at an attribute path of a set.
#[cycle(exprs)]
fn get(store: &mut [u8], depth: u32, n: NodeId) -> ExprId
    requires { Long store.old }
    ensures { Lowering 0 (below n.0) own_node (λ nodes. lower_select nodes (lower_at depth nodes) (merge_at depth nodes) n.0) store.old result.0 store.new }
{
    let base = waiting_count(store);
    let first = kid(store, n, 0);
    let second = kid(store, n, 1);
    let third = kid(store, n, 2);
    let p = node_pointer(store, n);
    let set = opt(store, depth, first);
    attrs(store, depth, second);
    let default_expr = there(store, depth, third);
    alloc_expr(store, Expr::Select(set, default_expr), base, p)
}

// HasAttr.
#[cycle(exprs)]
fn has(store: &mut [u8], depth: u32, n: NodeId) -> ExprId
    requires { Long store.old }
    ensures { Lowering 0 (below n.0) own_node (λ nodes. lower_has_attr nodes (lower_at depth nodes) (merge_at depth nodes) n.0) store.old result.0 store.new }
{
    let base = waiting_count(store);
    let first = kid(store, n, 0);
    let second = kid(store, n, 1);
    let p = node_pointer(store, n);
    let set = opt(store, depth, first);
    attrs(store, depth, second);
    alloc_expr(store, Expr::HasAttr(set), base, p)
}

// lower_string
#[cycle(exprs)]
fn str(store: &mut [u8], depth: u32, n: NodeId) -> ExprId
    requires { Long store.old }
    ensures { Lowering 0 (below n.0) one_expr (λ nodes. lower_string nodes (lower_at depth nodes) (merge_at depth nodes) n.0) store.old result.0 store.new }
{
    let p = node_pointer(store, n);
    let base = waiting_count(store);
    match get_str_literal(store, n) {
        Some(t) => alloc_lone(store, Expr::Literal(Literal::Text(t)), p),
        None => {
            parts(store, depth, n);
            alloc_expr(store, Expr::StringInterpolation, base, p)
        }
    }
}

// lower_path
#[cycle(exprs)]
fn path(store: &mut [u8], depth: u32, n: NodeId) -> ExprId
    requires { Long store.old }
    ensures { Lowering 0 (below n.0) own_node (λ nodes. lower_path nodes (lower_at depth nodes) (merge_at depth nodes) n.0) store.old result.0 store.new }
{
    let p = node_pointer(store, n);
    let base = waiting_count(store);
    if has_interpolation(store, n) {
        parts(store, depth, n);
        return alloc_expr(store, Expr::PathInterpolation, base, p);
    }
    let t = node_text(store, n);
    alloc_lone(store, Expr::Literal(Literal::Path(t)), p)
}

// lower_string_interpolation: every part waits as an item.
#[cycle(exprs)]
fn parts(store: &mut [u8], depth: u32, n: NodeId)
    requires { Long store.old }
    ensures { Collecting 0 (below n.0) nothing (map part_item) (λ nodes. each (lower_part nodes (lower_at depth nodes) (merge_at depth nodes)) (items nodes n.0)) store.old store.new }
{
    for i in 0..kid_count(store, n) {
        if let Some(p) = kid(store, n, i) {
            part(store, depth, p);
        }
    }
}

// A part of a string or a path.
#[cycle(exprs)]
fn part(store: &mut [u8], depth: u32, n: NodeId)
    requires { Long store.old }
    ensures { Collecting 0 (λ nodes. sized nodes n.0) nothing (one part_item) (λ nodes. lower_part nodes (lower_at depth nodes) (merge_at depth nodes) n.0) store.old store.new }
{
    if syntax_kind(store, n) == Some(SyntaxKind::LiteralPart) {
        let t = node_text(store, n);
        push_item(store, Item::Text(t));
        return;
    }
    let place = kid(store, n, 0);
    let e = opt(store, depth, place);
    push_item(store, Item::Child(e));
}

// lower_attrpath_opt: every attribute waits as an item.
#[cycle(exprs)]
fn attrs(store: &mut [u8], depth: u32, place: Option<NodeId>)
    requires { Long store.old }
    ensures { Collecting 0 (λ nodes. room.place nodes (node_of place)) nothing (map child) (λ nodes. lower_attrpath_opt nodes (lower_at depth nodes) (merge_at depth nodes) (node_of place)) store.old store.new }
{
    let Some(n) = place else {
        return;
    };
    for i in 0..kid_count(store, n) {
        if let Some(a) = kid(store, n, i) {
            let e = attr(store, depth, a);
            push_item(store, Item::Child(e));
        }
    }
}

// An attribute of a path.
#[cycle(exprs)]
fn attr(store: &mut [u8], depth: u32, n: NodeId) -> ExprId
    requires { Long store.old }
    ensures { Lowering 0 (below n.0) one_expr (λ nodes. lower_attr nodes (lower_at depth nodes) (merge_at depth nodes) n.0) store.old result.0 store.new }
{
    // No `match`, as in `keys::attr_kind`: in its arm `_` the proof can't cite that the kind is none of those above.
    let kind = syntax_kind(store, n);
    if kind == Some(SyntaxKind::Dynamic) {
        let place = kid(store, n, 0);
        opt(store, depth, place)
    } else if kind == Some(SyntaxKind::Str) {
        str(store, depth, n)
    } else {
        attr_name(store, n)
    }
}

// lower_lambda
#[cycle(exprs)]
fn lambda(store: &mut [u8], depth: u32, n: NodeId) -> ExprId
    requires { Long store.old }
    ensures { Lowering 0 (below n.0) own_node (λ nodes. lower_lambda nodes (lower_at depth nodes) (merge_at depth nodes) n.0) store.old result.0 store.new }
{
    let base = waiting_count(store);
    let first = kid(store, n, 0);
    let second = kid(store, n, 1);
    let p = node_pointer(store, n);
    let Param {
        ident,
        owner,
        pattern,
    } = param_of(store, first);
    let name = lower_name(store, NameKind::Param, ident);
    fields(store, depth, owner);
    let body = opt(store, depth, second);
    alloc_expr(store, Expr::Lambda(name, pattern, body), base, p)
}

// The fields of a pattern, if there is one: each waits as an item.
#[cycle(exprs)]
fn fields(store: &mut [u8], depth: u32, owner: Option<NodeId>)
    requires { Long store.old }
    ensures { Collecting 0 (λ nodes. sizes nodes (attrs_from nodes 1 (node_of owner))) nothing (map field_item) (λ nodes. each (lower_field nodes (lower_at depth nodes) (merge_at depth nodes)) (attrs_from nodes 1 (node_of owner))) store.old store.new }
{
    let Some(n) = owner else {
        return;
    };
    for i in 1..kid_count(store, n) {
        if let Some(f) = kid(store, n, i) {
            field(store, depth, f);
        }
    }
}

// A field: its name, then its default.
#[cycle(exprs)]
fn field(store: &mut [u8], depth: u32, n: NodeId)
    requires { Long store.old }
    ensures { Collecting 0 (λ nodes. sized nodes n.0) nothing (one field_item) (λ nodes. lower_field nodes (lower_at depth nodes) (merge_at depth nodes) n.0) store.old store.new }
{
    let first = kid(store, n, 0);
    let second = kid(store, n, 1);
    let x = lower_name(store, NameKind::PatField, first);
    let e = there(store, depth, second);
    push_item(store, Item::Field(x, e));
}

// LetIn: its entries, then its body.
#[cycle(exprs)]
fn let_in(store: &mut [u8], depth: u32, n: NodeId) -> ExprId
    requires { Long store.old × (kind (nodes_of store.old) n.0 ≡ 12) }
    ensures { Lowering 0 (below n.0) own_node (λ nodes. lower_let_in nodes (lower_at depth nodes) (merge_at depth nodes) n.0) store.old result.0 store.new }
{
    let base = waiting_count(store);
    let first = kid(store, n, 0);
    let p = node_pointer(store, n);
    binds(store, depth, NameKind::LetIn, n);
    let body = opt(store, depth, first);
    alloc_expr(store, Expr::LetIn(body), base, p)
}

// List.
#[cycle(exprs)]
fn list(store: &mut [u8], depth: u32, n: NodeId) -> ExprId
    requires { Long store.old }
    ensures { Lowering 0 (below n.0) own_node (λ nodes. lower_list nodes (lower_at depth nodes) (merge_at depth nodes) n.0) store.old result.0 store.new }
{
    let base = waiting_count(store);
    let p = node_pointer(store, n);
    for i in 0..kid_count(store, n) {
        if let Some(k) = kid(store, n, i) {
            let e = expr(store, depth, k);
            push_item(store, Item::Child(e));
        }
    }
    alloc_expr(store, Expr::List, base, p)
}

// BinOp: "A flag-0 BinOp lowers its left side first."
// The operator stays the number that the flag is: the definitions keep it so, and 0 apart, which is none, nothing here
// looks at which it is.
#[cycle(exprs)]
fn binop(store: &mut [u8], depth: u32, n: NodeId) -> ExprId
    requires { Long store.old }
    ensures { Lowering 0 (below n.0) own_node (λ nodes. lower_bin_op nodes (lower_at depth nodes) (merge_at depth nodes) n.0) store.old result.0 store.new }
{
    let first = kid(store, n, 0);
    let second = kid(store, n, 1);
    let p = node_pointer(store, n);
    let op = node_flag(store, n);
    let lhs = opt(store, depth, first);
    if op == 0 {
        return alloc_missing(store);
    }
    let rhs = opt(store, depth, second);
    alloc_lone(store, Expr::BinOp(lhs, rhs, op), p)
}

// AttrSet.
#[cycle(exprs)]
fn set(store: &mut [u8], depth: u32, n: NodeId) -> ExprId
    requires { Long store.old }
    ensures { Lowering 0 (below n.0) own_node (λ nodes. lower_attr_set nodes (lower_at depth nodes) (merge_at depth nodes) n.0) store.old result.0 store.new }
{
    let base = waiting_count(store);
    let p = node_pointer(store, n);
    let kind = name_kind_of_set(store, n);
    // Read from the flag as the definition reads it; `kind` would say it by one more match.
    let is_rec = node_flag(store, n) == 1;
    binds(store, depth, kind, n);
    alloc_expr(store, Expr::AttrSet(is_rec), base, p)
}

// UnaryOp; its operator is a number as that of a BinOp.
#[cycle(exprs)]
fn unop(store: &mut [u8], depth: u32, n: NodeId) -> ExprId
    requires { Long store.old }
    ensures { Lowering 0 (below n.0) own_node (λ nodes. lower_unary_op nodes (lower_at depth nodes) (merge_at depth nodes) n.0) store.old result.0 store.new }
{
    let first = kid(store, n, 0);
    let p = node_pointer(store, n);
    let op = node_flag(store, n);
    if op == 0 {
        return alloc_missing(store);
    }
    let e = opt(store, depth, first);
    alloc_lone(store, Expr::UnaryOp(op, e), p)
}

// MergingSet::desugar and finish: the bindings wait as items, and of the open sets only those around it stay.
#[cycle(exprs)]
fn binds(store: &mut [u8], depth: u32, kind: NameKind, n: NodeId)
    requires { Long store.old }
    ensures { Collecting 0 (λ nodes. sizes nodes (merging.entries_of nodes (lower_at depth nodes) (merge_at depth nodes) n.0)) one_set binding_items (λ nodes. merging.desugar nodes (lower_at depth nodes) (merge_at depth nodes) (kind_of kind) n.0) store.old store.new }
{
    let around = opened_now(store);
    let p = node_pointer(store, n);
    let s = open_set(store, kind, p);
    entries(store, depth, s, n);
    finish_set(store, s);
    cut(store, around.sets, around.entries);
}

// merge_bindings, one level deeper: the entries join those that the set s has.
#[cycle(exprs)]
fn join(store: &mut [u8], depth: u32, s: SetId, n: NodeId)
    requires { Long store.old }
    ensures { Lowering (suc s.0) (below n.0) nothing (λ nodes. merge_bindings nodes depth s.0 n.0) store.old tt store.new }
{
    if depth == 0 {
        return;
    }
    entries(store, depth - 1, s, n)
}

// The entries of a set or a let.
#[cycle(exprs)]
fn entries(store: &mut [u8], depth: u32, s: SetId, n: NodeId)
    requires { Long store.old }
    ensures { Lowering (suc s.0) (λ nodes. sizes nodes (merging.entries_of nodes (lower_at depth nodes) (merge_at depth nodes) n.0)) nothing (λ nodes. merge_entries nodes (lower_at depth nodes) (merge_at depth nodes) s.0 n.0) store.old tt store.new }
{
    for i in first_entry(store, n)..kid_count(store, n) {
        if let Some(e) = kid(store, n, i) {
            entry(store, depth, s, e);
        }
    }
}

// One entry.
#[cycle(exprs)]
fn entry(store: &mut [u8], depth: u32, s: SetId, n: NodeId)
    requires { Long store.old }
    ensures { Lowering (suc s.0) (λ nodes. sized nodes n.0) nothing (λ nodes. merge_entry nodes (lower_at depth nodes) (merge_at depth nodes) s.0 n.0) store.old tt store.new }
{
    if syntax_kind(store, n) == Some(SyntaxKind::Inherit) {
        inherit(store, depth, s, n)
    } else {
        put(store, depth, s, n)
    }
}

// merge_inherit
#[cycle(exprs)]
fn inherit(store: &mut [u8], depth: u32, s: SetId, n: NodeId)
    requires { Long store.old }
    ensures { Lowering (suc s.0) (λ nodes. sized nodes n.0) nothing (λ nodes. merge_inherit nodes (lower_at depth nodes) (merge_at depth nodes) s.0 n.0) store.old tt store.new }
{
    let place = kid(store, n, 0);
    let from_set = src(store, depth, s, place);
    for i in 1..kid_count(store, n) {
        if let Some(a) = kid(store, n, i) {
            heir(store, depth, s, from_set, a);
        }
    }
}

// The source of an inherit, if it has one.
#[cycle(exprs)]
fn src(store: &mut [u8], depth: u32, s: SetId, place: Option<NodeId>) -> Option<ExprId>
    requires { Long store.old }
    ensures { Lowering (suc s.0) (λ nodes. room.place nodes (node_of place)) nothing (λ nodes. inherit_source nodes (lower_at depth nodes) (merge_at depth nodes) s.0 (node_of place)) store.old (expr_of result) store.new }
{
    let inner = kid(store, place?, 0);
    let e = opt(store, depth, inner);
    add_source(store, s, e);
    Some(e)
}

// One inherited attribute. "A dynamic inherited one: a Missing key and its value."
#[cycle(exprs)]
fn heir(store: &mut [u8], depth: u32, s: SetId, from_set: Option<ExprId>, n: NodeId)
    requires { Long store.old }
    ensures { Lowering (suc s.0) (λ nodes. sized nodes n.0) nothing (λ nodes. inherit_attr nodes (lower_at depth nodes) (merge_at depth nodes) s.0 (expr_of from_set) n.0) store.old tt store.new }
{
    let p = node_pointer(store, n);
    match attr_kind(store, n) {
        AttrKind::Static(key) => {
            let v = inherit_value(store, from_set, key, p);
            merge_static_value(store, s, key, p, v)
        }
        AttrKind::Dynamic(e) => push(store, depth, s, None, e),
    }
}

// merge_attrpath_val: without an attribute the key is Missing.
#[cycle(exprs)]
fn put(store: &mut [u8], depth: u32, s: SetId, n: NodeId)
    requires { Long store.old }
    ensures { Lowering (suc s.0) (λ nodes. sized nodes n.0) nothing (λ nodes. merge_attrpath_val nodes (lower_at depth nodes) (merge_at depth nodes) s.0 n.0) store.old tt store.new }
{
    let first = kid(store, n, 0);
    let second = kid(store, n, 1);
    let attributes = Rest {
        path: first,
        after: 0,
    };
    match attributes.next(store) {
        None => push(store, depth, s, None, second),
        Some((a, rest)) => nested(store, depth, s, a, rest, second),
    }
}

// merge_nested_attr_value: the attribute n, then the rest of its path, then the value.
#[cycle(exprs)]
fn nested(store: &mut [u8], depth: u32, s: SetId, n: NodeId, rest: Rest, value: Option<NodeId>)
    requires { Long store.old }
    ensures { Lowering (suc s.0) (λ nodes. sized nodes n.0 + (sizes nodes (attrs_left nodes rest) + room.place nodes (node_of value))) nothing (λ nodes. merge_nested_attr_value nodes (lower_at depth nodes) (merge_at depth nodes) s.0 n.0 (attrs_left nodes rest) (node_of value)) store.old tt store.new }
{
    match rest.next(store) {
        None => last(store, depth, s, n, value),
        Some((a, more)) => step(store, depth, s, n, a, more, value),
    }
}

// An attribute before the end of a path. "A Dynamic key before the end of a path: nested set first, key second."
#[cycle(exprs)]
fn step(
    store: &mut [u8],
    depth: u32,
    s: SetId,
    n: NodeId,
    a: NodeId,
    rest: Rest,
    value: Option<NodeId>,
)
    requires { Long store.old }
    ensures { Lowering (suc s.0) (λ nodes. sized nodes n.0 + (sized nodes a.0 + (sizes nodes (attrs_left nodes rest) + room.place nodes (node_of value)))) nothing (λ nodes. merge_nested_attr_value nodes (lower_at depth nodes) (merge_at depth nodes) s.0 n.0 (a.0 ∷ attrs_left nodes rest) (node_of value)) store.old tt store.new }
{
    let p = node_pointer(store, n);
    match attr_kind(store, n) {
        AttrKind::Static(key) => {
            let t = get_or_create_nested_static(store, s, key, p);
            nested(store, depth, t, a, rest, value)
        }
        AttrKind::Dynamic(key) => {
            let e = nest(store, depth, p, a, rest, value);
            let made = opt(store, depth, key);
            add_dynamic(store, s, made, e)
        }
    }
}

// The nested set of a key that is not static, built at once.
#[cycle(exprs)]
fn nest(
    store: &mut [u8],
    depth: u32,
    p: Pointer,
    n: NodeId,
    rest: Rest,
    value: Option<NodeId>,
) -> ExprId
    requires { Long store.old }
    ensures { Lowering 0 (λ nodes. sized nodes n.0 + (sizes nodes (attrs_left nodes rest) + room.place nodes (node_of value))) one_set (λ nodes. nested_expr nodes (lower_at depth nodes) (merge_at depth nodes) (pointer_of p) n.0 (attrs_left nodes rest) (node_of value)) store.old result.0 store.new }
{
    let around = opened_now(store);
    let t = open_set(store, NameKind::PlainAttrset, p);
    nested(store, depth, t, n, rest, value);
    let e = finish_nested(store, t);
    cut(store, around.sets, around.entries);
    e
}

// merge_attr_value: the last attribute of a path and the value.
#[cycle(exprs)]
fn last(store: &mut [u8], depth: u32, s: SetId, n: NodeId, value: Option<NodeId>)
    requires { Long store.old }
    ensures { Lowering (suc s.0) (λ nodes. sized nodes n.0 + room.place nodes (node_of value)) nothing (λ nodes. merge_attr_value nodes (lower_at depth nodes) (merge_at depth nodes) s.0 n.0 (node_of value)) store.old tt store.new }
{
    match attr_kind(store, n) {
        AttrKind::Static(key) => keyed(store, depth, s, key, n, value),
        AttrKind::Dynamic(key) => push(store, depth, s, key, value),
    }
}

// "a value AttrSet, not in Parens, merges into a nested set already there"
#[cycle(exprs)]
fn keyed(store: &mut [u8], depth: u32, s: SetId, key: TextId, n: NodeId, value: Option<NodeId>)
    requires { Long store.old }
    ensures { Lowering (suc s.0) (λ nodes. room.place nodes (node_of value)) (price 2 1 1 2 0 1) (λ nodes. merge_keyed nodes (lower_at depth nodes) (merge_at depth nodes) s.0 (text_in store.old key.0) n.0 (node_of value)) store.old tt store.new }
{
    match into_set(store, s, key, value) {
        Some((t, v)) => join(store, depth, t, v),
        None => {
            let p = node_pointer(store, n);
            let e = opt(store, depth, value);
            merge_static_value(store, s, key, p, BindingValue::Expr(e))
        }
    }
}

// push_dynamic: "At the end: key, then value."
#[cycle(exprs)]
fn push(store: &mut [u8], depth: u32, s: SetId, key: Option<NodeId>, value: Option<NodeId>)
    requires { Long store.old }
    ensures { Lowering (suc s.0) (λ nodes. heft (node_of key) nodes + heft (node_of value) nodes) (price 3 1 0 0 0 1) (λ nodes. push_dynamic nodes (lower_at depth nodes) (merge_at depth nodes) s.0 (node_of key) (node_of value)) store.old tt store.new }
{
    let k = opt(store, depth, key);
    let v = opt(store, depth, value);
    add_dynamic(store, s, k, v)
}
