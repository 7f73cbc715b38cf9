// Finishing a set: its bindings are pushed as items, statics in the order of their keys, then sources,
// then dynamics. Nested sets are built when their key's turn comes.
//
// The four functions call each other; `bound` falls with each nested set. Sets are nested no deeper than
// there are sets, so that the bound is never met.
ghost use Rattle.std.specs.Prelude.{length};
ghost use Rattle.spec.specs.Merge.{finish_value, finish_with, finish_to, finish_expr};
ghost use Rattle.spec.specs.Merge as merge;
ghost use Rattle.spec.proofs.sets.Loads.{load, loads};
ghost use Rattle.module.specs.Ids.{binding_of};
ghost use Rattle.layout.specs.Layout.{Long};
ghost use Rattle.layout.specs.States.{sets_of, entries_of};
ghost use Rattle.open_sets.specs.Entries.{maybe_set_of, maybe_value_of, entry_with};
ghost use Rattle.merge.specs.Finishes.{binding_items, finish_entry, only, value_load, entry_load, Finishing, Listing};

use module::{BindingValue, Expr, ExprId, Item};
use open_sets::{Entry, SetId, entry_count, entry_of, first_of, set_count, set_pointer};
use store::{alloc_expr, alloc_missing, push_item, waiting_count};

// docs/RULES.md, "Finishing": "a nested set still wins"
#[tactic(auto, using(crate::proofs::FinishLaws::nested_wins, crate::proofs::FinishLaws::value_stays, crate::proofs::FinishLaws::value_missing), unfolding(open_sets::specs::Entries::maybe_set_of, open_sets::specs::Entries::maybe_value_of, module::specs::Ids::binding_of))]
#[cycle(finishing)]
fn finish_value(
    store: &mut [u8],
    bound: u32,
    nested: Option<SetId>,
    value: Option<BindingValue>,
) -> BindingValue
    requires { Long store.old }
    ensures { Finishing (value_load (load (entries_of store.old) bound) (maybe_set_of nested) (maybe_value_of value)) (finish_value (finish_to bound) (maybe_set_of nested) (maybe_value_of value)) store.old (binding_of result) store.new }
{
    match (nested, value) {
        (Some(t), _) => BindingValue::Expr(finish_expr(store, bound, t)),
        (None, Some(v)) => v,
        (None, None) => BindingValue::Expr(alloc_missing(store)),
    }
}

// Pushes the item of an entry.
#[tactic(auto, using(crate::proofs::FinishLaws::lone_listed), unfolding(open_sets::specs::Entries::entry_with, rows::specs::Decoded::item_with, crate::specs::Finishes::finish_entry, crate::specs::Finishes::entry_load))]
#[cycle(finishing)]
fn finish_entry(store: &mut [u8], bound: u32, e: Entry)
    requires { Long store.old }
    ensures { Listing (entry_load (load (entries_of store.old) bound) (entry_with store.old e)) only (finish_entry (finish_to bound) (entry_with store.old e)) store.old store.new }
{
    match e {
        Entry::Static(_, _, x, nested, value) => {
            let v = finish_value(store, bound, nested, value);
            push_item(store, Item::Static(x, v));
        }
        Entry::Source(_, set) => {
            push_item(store, Item::Child(set));
        }
        Entry::Dynamic(_, key, value) => {
            push_item(store, Item::Dynamic(key, value));
        }
    }
}

// Pushes the bindings of a set, in the order of the run. Each entry is read from the store that the ones before it
// have been pushed into.
#[tactic(auto, using(crate::proofs::FinishLaws::going_none, crate::proofs::FinishLaws::going_more, crate::proofs::FinishLaws::going_done, crate::proofs::FinishLaws::going_past), unfolding(open_sets::specs::Run::NextInRun))]
#[cycle(finishing)]
pub fn finish(store: &mut [u8], bound: u32, s: SetId)
    requires { Long store.old }
    ensures { Listing (loads (entries_of store.old) bound s.0) binding_items (finish_with (finish_to bound) s.0) store.old store.new }
{
    for j in first_of(store, s)..entry_count(store) {
        let Some(e) = entry_of(store, s, j) else {
            return;
        };
        finish_entry(store, bound, e);
    }
}

// The set as an expression.
#[tactic(auto, using(crate::proofs::FinishLaws::no_bound, crate::proofs::FinishLaws::set_finished), unfolding(rows::specs::Decoded::ValidExpr))]
#[cycle(finishing)]
pub fn finish_expr(store: &mut [u8], bound: u32, s: SetId) -> ExprId
    requires { Long store.old }
    ensures { Finishing (load (entries_of store.old) bound s.0) (finish_to bound s.0) store.old result.0 store.new }
{
    if bound == 0 {
        return alloc_missing(store);
    }
    let base = waiting_count(store);
    finish(store, bound - 1, s);
    let p = set_pointer(store, s);
    alloc_expr(store, Expr::AttrSet(false), base, p)
}

// The bindings of a set that is at its end.
pub fn finish_set(store: &mut [u8], s: SetId)
    requires { Long store.old }
    ensures { Listing (loads (entries_of store.old) (length (sets_of store.old)) s.0) binding_items (merge.finish s.0) store.old store.new }
{
    let bound = set_count(store);
    finish(store, bound, s);
}

// The same as an expression.
#[tactic(auto, using(crate::proofs::FinishLaws::nested_whole))]
pub fn finish_nested(store: &mut [u8], s: SetId) -> ExprId
    requires { Long store.old }
    ensures { Finishing (load (entries_of store.old) (length (sets_of store.old)) s.0) (finish_expr s.0) store.old result.0 store.new }
{
    let bound = set_count(store);
    finish_expr(store, bound, s)
}
