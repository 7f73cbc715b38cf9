// What is allocated without lowering anything below it (docs/RULES.md, "From nodes to expressions").
#![tactic(auto, unfolding(rows::specs::Decoded::ValidExpr, module::specs::Literals::Valid))]

ghost use Rattle.std.specs.Prelude.{◌≡◌, [], Some, eqb};
ghost use Rattle.spec.specs.Keys as keys;
ghost use Rattle.spec.specs.Module as spec;
ghost use Rattle.spec.specs.Steps.{when};
ghost use Rattle.spec.specs.State.{alloc_expr, alloc_missing};
ghost use Rattle.spec.specs.Lower.{lower_name, lower_ident};
ghost use Rattle.module.specs.Ids.{node_of, name_of, pointer_of};
ghost use Rattle.module.specs.Kinds.{kind_of};
ghost use Rattle.module.specs.SyntaxKinds.{number_of_syntax};
ghost use Rattle.layout.specs.Layout.{Long};
ghost use Rattle.layout.specs.Texts.{text_in};
ghost use Rattle.rows.specs.Decoded.{expr_with, ValidExpr};
ghost use Rattle.keys.specs.Literals.{literal_held, alloc_literal};
ghost use Rattle.merge.specs.Room.{nothing, one_expr};
ghost use Rattle.merge.specs.Lowers.{Lowering};
ghost use Rattle.lower.specs.Sizes as sizes;
ghost use Rattle.lower.specs.Parts.{lower_at, merge_at, IsForm};

use intake::{node_pointer, node_text};
use keys::{literal_of, name_of_ident};
use module::{Expr, ExprId, Literal, NameId, NameKind, NodeId, Pointer, SyntaxKind, TextId};
use store::{alloc_expr, alloc_missing, alloc_name, waiting_count};

// alloc_expr, for an expression without items.
pub fn alloc_lone(store: &mut [u8], e: Expr, p: Pointer) -> ExprId
    requires { Long store.old × ValidExpr e }
    ensures { Lowering 0 (λ _. 0) one_expr (λ _. alloc_expr (expr_with (text_in store.old) e []) (pointer_of p)) store.old result.0 store.new }
{
    let base = waiting_count(store);
    alloc_expr(store, e, base, p)
}

// Apply, With or Assert.
pub fn pair_form(kind: SyntaxKind, a: ExprId, b: ExprId) -> Expr
    ensures { IsForm (number_of_syntax kind) a.0 b.0 result }
{
    match kind {
        SyntaxKind::Apply => Expr::Apply(a, b),
        SyntaxKind::With => Expr::With(a, b),
        _ => Expr::Assert(a, b),
    }
}

// lower_name: an Ident without a name is named by the empty text.
pub fn lower_name(store: &mut [u8], kind: NameKind, place: Option<NodeId>) -> Option<NameId>
    requires { Long store.old }
    ensures { Lowering 0 (λ nodes. sizes.place nodes (node_of place)) nothing (λ nodes. lower_name nodes (lower_at 0 nodes) (merge_at 0 nodes) (kind_of kind) (node_of place)) store.old (name_of result) store.new }
{
    let n = place?;
    let text = node_text(store, n);
    let p = node_pointer(store, n);
    Some(alloc_name(store, text, kind, p))
}

// A Float or an Integer; Missing where the literal can't be read.
pub fn literal(store: &mut [u8], n: NodeId, kind: SyntaxKind) -> ExprId
    requires { Long store.old }
    ensures { Lowering 0 (λ _. 0) one_expr (λ nodes. alloc_literal nodes n.0 (literal_held nodes (Some kind) n.0)) store.old result.0 store.new }
{
    let p = node_pointer(store, n);
    match literal_of(store, n, Some(kind)) {
        Some(l) => alloc_lone(store, Expr::Literal(l), p),
        None => alloc_missing(store),
    }
}

pub fn uri(store: &mut [u8], n: NodeId) -> ExprId
    requires { Long store.old }
    ensures { Lowering 0 (λ _. 0) one_expr (λ nodes. alloc_expr (spec.literal spec.uri) (keys.pointer nodes n.0)) store.old result.0 store.new }
{
    let p = node_pointer(store, n);
    alloc_lone(store, Expr::Literal(Literal::Uri), p)
}

// Error and LegacyLet.
pub fn missing_node(store: &mut [u8], n: NodeId) -> ExprId
    requires { Long store.old }
    ensures { Lowering 0 (λ _. 0) one_expr (λ nodes. alloc_expr spec.missing (keys.pointer nodes n.0)) store.old result.0 store.new }
{
    let p = node_pointer(store, n);
    alloc_lone(store, Expr::Missing, p)
}

// "a flag-0 Ident gives Missing with a pointer"
pub fn ident(store: &mut [u8], n: NodeId) -> ExprId
    requires { Long store.old }
    ensures { Lowering 0 (λ _. 0) one_expr (λ nodes. lower_ident nodes (lower_at 0 nodes) (merge_at 0 nodes) n.0) store.old result.0 store.new }
{
    let p = node_pointer(store, n);
    match name_of_ident(store, n) {
        Some(t) => alloc_lone(store, Expr::Reference(t), p),
        None => alloc_lone(store, Expr::Missing, p),
    }
}

// An Ident as an attribute of a path: "a flag-0 Ident as a path attribute gives Missing without a pointer"
pub fn attr_name(store: &mut [u8], n: NodeId) -> ExprId
    requires { Long store.old }
    ensures { Lowering 0 (λ _. 0) one_expr (λ nodes. when (eqb (keys.flag nodes n.0) 1) (alloc_expr (spec.literal (spec.string (keys.text nodes n.0))) (keys.pointer nodes n.0)) alloc_missing) store.old result.0 store.new }
{
    let p = node_pointer(store, n);
    match name_of_ident(store, n) {
        Some(t) => alloc_lone(store, Expr::Literal(Literal::Text(t)), p),
        None => alloc_missing(store),
    }
}
