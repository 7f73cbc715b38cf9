// One key is merged into a set: a value, or a nested set. And what has no key: sources and dynamics.
ghost use Rattle.std.specs.Prelude.{◌≡◌, List, ℕ, suc, ◌≤◌};
ghost use Rattle.std.proofs.Math.Option.{none, some};
ghost use Rattle.spec.specs.State.{source, dynamic, add_entry};
ghost use Rattle.spec.specs.Merge as definition;
ghost use Rattle.module.specs.Ids.{binding_of, pointer_of};
ghost use Rattle.layout.specs.Layout.{Long};
ghost use Rattle.layout.specs.Texts.{text_in};
ghost use Rattle.layout.specs.States.{state_of};
ghost use Rattle.open_sets.specs.Entries.{maybe_set_of, entry_with};
ghost use Rattle.merge.specs.Room.{one_name, one_duplicate, one_set, one_entry};
ghost use Rattle.merge.specs.Lowers.{Lowerable, Lowering};
ghost use Rattle.merge.specs.Merges.{Merges, key_price, value_price, nested_price};

use module::{BindingValue, ExprId, NameId, NameKind, Pointer, TextId};
use open_sets::{
    Entry, SetId, add_entry, entry_at, find, open_set, set_name_kind, set_nested, set_value,
};
use rows::name_pointer;
use store::{add_duplicate, alloc_name};

// One more of the set's inherit_froms.
#[tactic(auto, unfolding(open_sets::specs::Entries::Storable))]
pub fn add_source(store: &mut [u8], s: SetId, e: ExprId)
    requires { Long store.old }
    ensures { Lowering (suc s.0) (λ _. 0) one_entry (λ _. add_entry (source s.0 e.0)) store.old tt store.new }
{
    add_entry(store, Entry::Source(s, e));
}

// One more of the set's dynamics.
#[tactic(auto, unfolding(open_sets::specs::Entries::Storable))]
pub fn add_dynamic(store: &mut [u8], s: SetId, key: ExprId, value: ExprId)
    requires { Long store.old }
    ensures { Lowering (suc s.0) (λ _. 0) one_entry (λ _. add_entry (dynamic s.0 key.0 value.0)) store.old tt store.new }
{
    add_entry(store, Entry::Dynamic(s, key, value));
}

// What the entry of a key has: its name, its nested set.
#[tactic(auto, unfolding(open_sets::specs::Entries::entry_with, spec::specs::Merge::name_in))]
fn name_in(e: Entry) -> NameId
    ensures { (st : List ℕ) → result.0 ≡ definition.name_in (entry_with st e) }
{
    match e {
        Entry::Static(_, _, x, _, _) => x,
        Entry::Source(..) | Entry::Dynamic(..) => NameId(0),
    }
}

#[tactic(auto, unfolding(open_sets::specs::Entries::entry_with, open_sets::specs::Entries::maybe_set_of, spec::specs::Merge::nested_in))]
fn nested_in(e: Entry) -> Option<SetId>
    ensures { (st : List ℕ) → maybe_set_of result ≡ definition.nested_in (entry_with st e) }
{
    match e {
        Entry::Static(_, _, _, nested, _) => nested,
        Entry::Source(..) | Entry::Dynamic(..) => None,
    }
}

// The nested set that a key has.
#[tactic(auto, using(crate::proofs::KeySteps::nested_read, crate::proofs::KeySteps::nested_found, crate::proofs::KeySteps::nested_missed), unfolding(open_sets::specs::Run::maybe_entry_of, open_sets::specs::Entries::maybe_set_of))]
pub fn nested_at(store: &[u8], s: SetId, key: TextId) -> Option<SetId>
    requires { Long store.now }
    ensures { Lowerable store.now → maybe_set_of result ≡ definition.nested_at (definition.find s.0 (text_in store.now key.0) (state_of store.now)) (state_of store.now) }
{
    let i = find(store, s, key)?;
    nested_in(entry_at(store, i))
}

// A name for a key of the set. Set, key and pointer are three parameters here and below, as in the definitions: the
// callers in `lower` hold them apart, and the bodies would take a struct of them apart again.
fn name_key(store: &mut [u8], s: SetId, key: TextId, p: Pointer) -> NameId
    requires { Long store.old }
    ensures { Merges one_name (definition.name_key s.0 (text_in store.old key.0) (pointer_of p)) store.old result.0 store.new }
{
    let kind = set_name_kind(store, s);
    alloc_name(store, key, kind, p)
}

// A value at a key that is new.
#[tactic(auto, unfolding(open_sets::specs::Entries::Storable, open_sets::specs::Entries::HeldSet))]
fn first_value(store: &mut [u8], s: SetId, key: TextId, p: Pointer, value: BindingValue)
    requires { Long store.old }
    ensures { Merges key_price (definition.merge_value_at s.0 (text_in store.old key.0) (pointer_of p) (binding_of value) none) store.old tt store.new }
{
    let x = name_key(store, s, key, p);
    add_entry(store, Entry::Static(s, key, x, None, Some(value)));
}

// Another value at a key whose entry is i: a diagnostic, first the name's pointer, and it replaces the
// value.
fn second_value(store: &mut [u8], i: u32, key: TextId, p: Pointer, value: BindingValue)
    requires { Long store.old }
    ensures { (s : ℕ) → Merges one_duplicate (definition.merge_value_at s (text_in store.old key.0) (pointer_of p) (binding_of value) (some i)) store.old tt store.new }
{
    let x = name_in(entry_at(store, i));
    let first = name_pointer(store, x);
    add_duplicate(store, key, first, p);
    set_value(store, i, value);
}

pub fn merge_static_value(store: &mut [u8], s: SetId, key: TextId, p: Pointer, value: BindingValue)
    requires { Long store.old }
    ensures { Lowering (suc s.0) (λ _. 0) value_price (λ _. definition.merge_static_value s.0 (text_in store.old key.0) (pointer_of p) (binding_of value)) store.old tt store.new }
{
    match find(store, s, key) {
        Some(i) => second_value(store, i, key, p, value),
        None => first_value(store, s, key, p, value),
    }
}

// A nested set at a key that is new.
#[tactic(auto, unfolding(open_sets::specs::Entries::Storable, open_sets::specs::Entries::HeldSet))]
fn first_nested(store: &mut [u8], s: SetId, key: TextId, p: Pointer) -> SetId
    requires { Long store.old }
    ensures { Merges nested_price (definition.nested_static_at s.0 (text_in store.old key.0) (pointer_of p) none) store.old result.0 store.new }
{
    let x = name_key(store, s, key, p);
    let t = open_set(store, NameKind::PlainAttrset, p);
    add_entry(store, Entry::Static(s, key, x, Some(t), None));
    t
}

// A nested set beside the value of the entry i.
fn nest_in(store: &mut [u8], i: u32, p: Pointer) -> SetId
    requires { Long store.old }
    ensures { Merges one_set (definition.nested_or i (pointer_of p) none) store.old result.0 store.new }
{
    let t = open_set(store, NameKind::PlainAttrset, p);
    set_nested(store, i, t);
    t
}

// The nested set of the entry i, which is made if there is none.
fn nested_or(store: &mut [u8], i: u32, p: Pointer) -> SetId
    requires { Long store.old }
    ensures { (s : ℕ) (key : List ℕ) → Merges one_set (definition.nested_static_at s key (pointer_of p) (some i)) store.old result.0 store.new }
{
    match nested_in(entry_at(store, i)) {
        Some(t) => t,
        None => nest_in(store, i, p),
    }
}

pub fn get_or_create_nested_static(store: &mut [u8], s: SetId, key: TextId, p: Pointer) -> SetId
    requires { Long store.old }
    ensures { Lowering (suc s.0) (λ _. 0) nested_price (λ _. definition.get_or_create_nested_static s.0 (text_in store.old key.0) (pointer_of p)) store.old result.0 store.new }
{
    match find(store, s, key) {
        Some(i) => nested_or(store, i, p),
        None => first_nested(store, s, key, p),
    }
}
