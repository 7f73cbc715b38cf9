// What an inherited key is bound to.
ghost use Rattle.std.proofs.Math.Option.{none, some};
ghost use Rattle.module.specs.Ids.{expr_of, binding_of, pointer_of};
ghost use Rattle.layout.specs.Layout.{Long};
ghost use Rattle.layout.specs.Texts.{text_in};
ghost use Rattle.merge.specs.Merges.{Inherits};

use module::{BindingValue, Expr, ExprId, Item, Literal, Pointer, TextId};
use store::{alloc_expr, push_item, waiting_count};

// From where the entries stand: a reference.
#[tactic(auto, using(crate::proofs::InheritSteps::inherits_plain), unfolding(module::specs::Ids::binding_of, rows::specs::Decoded::ValidExpr))]
fn inherited(store: &mut [u8], key: TextId, p: Pointer) -> BindingValue
    requires { Long store.old }
    ensures { Inherits none (text_in store.old key.0) (pointer_of p) store.old (binding_of result) store.new }
{
    let base = waiting_count(store);
    let e = alloc_expr(store, Expr::Reference(key), base, p);
    BindingValue::Inherit(e)
}

// From a set: a Select, whose path is the key as a literal.
#[tactic(auto, unfolding(rows::specs::Decoded::ValidExpr, module::specs::Literals::Valid))]
fn inherited_from(store: &mut [u8], set: ExprId, key: TextId, p: Pointer) -> BindingValue
    requires { Long store.old }
    ensures { Inherits (some set.0) (text_in store.old key.0) (pointer_of p) store.old (binding_of result) store.new }
{
    let base = waiting_count(store);
    let l = alloc_expr(store, Expr::Literal(Literal::Text(key)), base, p);
    push_item(store, Item::Child(l));
    let e = alloc_expr(store, Expr::Select(set, None), base, p);
    BindingValue::InheritFrom(e)
}

#[tactic(auto, unfolding(module::specs::Ids::expr_of))]
pub fn inherit_value(store: &mut [u8], set: Option<ExprId>, key: TextId, p: Pointer) -> BindingValue
    requires { Long store.old }
    ensures { Inherits (expr_of set) (text_in store.old key.0) (pointer_of p) store.old (binding_of result) store.new }
{
    match set {
        None => inherited(store, key, p),
        Some(e) => inherited_from(store, e, key, p),
    }
}
