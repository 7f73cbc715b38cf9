// Which expressions an item of an expression hands on to a walk: one pass over the items for each of the lists that
// they stand for.
#![tactic(auto, unfolding(crate::specs::Picking::picks_of, crate::specs::Picking::picked, rows::specs::Decoded::item_with, layout::specs::Exprs::children, layout::specs::Exprs::fields, layout::specs::Exprs::statics, layout::specs::Exprs::dynamics, spec::specs::Scopes::field_defaults, spec::specs::Scopes::inherited, spec::specs::Scopes::plain_values, spec::specs::Scopes::keys_and_values, spec::specs::Scopes::one_or_none, module::specs::Ids::expr_of, spec::specs::Scopes::if_inherited, spec::specs::Scopes::if_plain, module::specs::Ids::binding_of,))]

ghost use Rattle.std.specs.Prelude.{◌≡◌, [], ◌∷◌, ℕ};
ghost use Rattle.spec.specs.Basics.{Text};
ghost use Rattle.spec.specs.Scopes.{one_or_none};
ghost use Rattle.module.specs.Ids.{expr_of};
ghost use Rattle.layout.specs.Layout.{Long};
ghost use Rattle.rows.specs.Readers.{item_at_expr};
ghost use Rattle.scopes.specs.declared.picks.Pass.TheVariants as pass_of;
ghost use Rattle.rows.specs.Decoded.{item_with};
ghost use Rattle.scopes.specs.Picking.{picks_of, picked};

use module::{BindingValue, ExprId, Item};
use rows::read_item;

// A pass is no closure that the walk is given: the walkers call each other, and no proof can be stated of functions in
// such a cycle that differ in their type parameters.
#[derive(Clone, Copy)]
pub enum Pass {
    // Items of a list, attributes of a path, interpolated parts, sources of inherits.
    Children,
    // Of the fields of a pattern.
    Defaults,
    // Values of `inherit x;`.
    Inherited,
    // Values of `x = ..;`.
    Values,
    // Keys and values of `${..} = ..;`.
    Dynamics,
}

fn child(item: Item) -> Option<ExprId>
    ensures { (texts : ℕ → Text) → one_or_none (expr_of result) ≡ picked pass_of.Children (item_with texts item ∷ []) }
{
    match item {
        Item::Child(c) => Some(c),
        _ => None,
    }
}

fn default(item: Item) -> Option<ExprId>
    ensures { (texts : ℕ → Text) → one_or_none (expr_of result) ≡ picked pass_of.Defaults (item_with texts item ∷ []) }
{
    match item {
        Item::Field(_, d) => d,
        _ => None,
    }
}

fn inherited(item: Item) -> Option<ExprId>
    ensures { (texts : ℕ → Text) → one_or_none (expr_of result) ≡ picked pass_of.Inherited (item_with texts item ∷ []) }
{
    match item {
        Item::Static(_, v) => match v {
            BindingValue::Inherit(c) => Some(c),
            _ => None,
        },
        _ => None,
    }
}

// The Select of an inherit with a source is not walked.
fn value(item: Item) -> Option<ExprId>
    ensures { (texts : ℕ → Text) → one_or_none (expr_of result) ≡ picked pass_of.Values (item_with texts item ∷ []) }
{
    match item {
        Item::Static(_, v) => match v {
            BindingValue::Expr(c) => Some(c),
            _ => None,
        },
        _ => None,
    }
}

fn dynamic(item: Item) -> (Option<ExprId>, Option<ExprId>)
    ensures { (texts : ℕ → Text) → picks_of result ≡ picked pass_of.Dynamics (item_with texts item ∷ []) }
{
    match item {
        Item::Dynamic(k, v) => (Some(k), Some(v)),
        _ => (None, None),
    }
}

// What the item with the number i of the expression e hands on in a pass: nothing, one expression, or a key and its
// value. Each pass reads the item by itself, so that in the compiled code its test is one of the item's tag. One match
// over pass and item together was slower: 596 million instructions for 2,000 walks over 2,095 expressions, and not 419.
pub fn pick_item(store: &[u8], e: ExprId, i: u32, pass: Pass) -> (Option<ExprId>, Option<ExprId>)
    requires { Long store.now }
    ensures { picks_of result ≡ picked pass (item_at_expr store.now e.0 i ∷ []) }
{
    match pass {
        Pass::Children => (child(read_item(store, e, i)), None),
        Pass::Defaults => (default(read_item(store, e, i)), None),
        Pass::Inherited => (inherited(read_item(store, e, i)), None),
        Pass::Values => (value(read_item(store, e, i)), None),
        Pass::Dynamics => dynamic(read_item(store, e, i)),
    }
}
