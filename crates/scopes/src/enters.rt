// Names wait for the scope that a function or bindings may open, and it is opened if there is one.
ghost use Rattle.std.specs.Prelude.{◌≡◌, [], ◌∷◌, ℕ, ◌++◌, ◌≤◌};
ghost use Rattle.spec.specs.Basics.{Text};
ghost use Rattle.spec.specs.Scopes.{one_or_none, is_definition, field_names, pat_fields, defined, open_for};
ghost use Rattle.module.specs.Ids.{name_of};
ghost use Rattle.module.specs.Kinds.{kind_of};
ghost use Rattle.layout.specs.Layout.{Long};
ghost use Rattle.layout.specs.Exprs.{statics};
ghost use Rattle.layout.specs.States.{module_in};
ghost use Rattle.rows.specs.Decoded.{item_with, pattern_with};
ghost use Rattle.rows.specs.Readers.{items_at_expr, item_at_expr};
ghost use Rattle.kept.specs.Walks.{Walked, waiting_names};
ghost use Rattle.scopes.specs.declared.enters.Names.TheVariants as names_of;
ghost use Rattle.scopes.specs.Walking.{Walks};
ghost use Rattle.scopes.specs.Entering.{entered, Enters, try_for};

use kept::{enter_name, open_scope};
use module::{ExprId, Item, NameId, NameKind, Pattern, ScopeId};
use rows::{item_count, name_kind_of, read_item};

// Which names of its items an expression enters. Closures in its place would be no plainer: each would take the store
// beside the item, and its call would have to state of that one list what `entered` states here of both.
#[derive(Clone, Copy)]
pub enum Names {
    // Of the fields of a pattern.
    Fields,
    // Of the statics of a let or a rec set.
    Definitions,
}

// Names of a plain set are none.
#[tactic(auto, unfolding(spec::specs::Scopes::is_definition, module::specs::Kinds::kind_of))]
fn is_definition(kind: NameKind) -> bool
    ensures { result ≡ is_definition (kind_of kind) }
{
    !matches!(kind, NameKind::PlainAttrset)
}

// The name that an item enters.
#[tactic(auto, unfolding(crate::specs::Entering::entered, rows::specs::Decoded::item_with, layout::specs::Exprs::fields, layout::specs::Exprs::statics, spec::specs::Scopes::field_names, spec::specs::Scopes::defined, spec::specs::Scopes::one_or_none, module::specs::Ids::name_of))]
fn name_entered(store: &[u8], item: Item, names: Names) -> Option<NameId>
    requires { Long store.now }
    ensures { (texts : ℕ → Text) → one_or_none (name_of result) ≡ entered names (module_in store.now) (item_with texts item ∷ []) }
{
    match (names, item) {
        (Names::Fields, Item::Field(x, _)) => x,
        (Names::Definitions, Item::Static(x, _)) if is_definition(name_kind_of(store, x)) => Some(
            x,
        ),
        _ => None,
    }
}

// After the first n names one more waits, if there is one; how many wait then.
fn enter_maybe(store: &mut [u8], n: u32, x: Option<NameId>) -> u32
    requires { Long store.old × (n ≤ 65536) }
    ensures { Enters n (one_or_none (name_of x)) store.old result store.new }
{
    let Some(x) = x else {
        return n;
    };
    enter_name(store, n, x);
    n + 1
}

// After the first n names those of the items of e wait.
fn enter_items(store: &mut [u8], e: ExprId, names: Names, n: u32) -> u32
    requires { Long store.old × (n ≤ 1) }
    ensures { Enters n (entered names (module_in store.old) (items_at_expr store.old e.0)) store.old result store.new }
{
    let mut next = n;
    for i in 0..item_count(store, e) {
        let x = name_entered(store, read_item(store, e, i), names);
        next = enter_maybe(store, next, x);
    }
    next
}

// A function without a pattern has no fields.
fn enter_fields(store: &mut [u8], e: ExprId, p: Pattern, n: u32) -> u32
    requires { Long store.old × (n ≤ 1) }
    ensures { Enters n (field_names (pat_fields (pattern_with p (items_at_expr store.old e.0)))) store.old result store.new }
{
    match p {
        Pattern::Absent => n,
        Pattern::Closed | Pattern::Ellipsis => enter_items(store, e, Names::Fields, n),
    }
}

// A scope with the first n of the names that wait, if there is one.
fn open_for(store: &mut [u8], n: u32, scope: ScopeId) -> ScopeId
    requires { Long store.old }
    ensures { Walked (try_for (waiting_names store.old n) scope.0) store.old result.0 store.new }
{
    if n == 0 {
        return scope;
    }
    open_scope(store, scope, n)
}

// The scope inside a function: its parameter is entered first, then the fields.
pub fn open_for_lambda(
    store: &mut [u8],
    e: ExprId,
    x: Option<NameId>,
    p: Pattern,
    scope: ScopeId,
) -> ScopeId
    requires { Long store.old }
    ensures { Walks scope.0 (λ m. open_for (one_or_none (name_of x) ++ field_names (pat_fields (pattern_with p (items_at_expr store.old e.0)))) scope.0) store.old result.0 store.new }
{
    let first = enter_maybe(store, 0, x);
    let n = enter_fields(store, e, p, first);
    open_for(store, n, scope)
}

// The scope inside bindings; that of a plain set is the one around it, for it defines no names.
pub fn open_for_bindings(store: &mut [u8], e: ExprId, scope: ScopeId) -> ScopeId
    requires { Long store.old }
    ensures { Walks scope.0 (λ m. open_for (defined m (statics (items_at_expr store.old e.0))) scope.0) store.old result.0 store.new }
{
    let n = enter_items(store, e, Names::Definitions, 0);
    open_for(store, n, scope)
}
