// The name that a scope defines for a text. Of equal texts the last entered answers, so that the search goes from the
// last one down and stops at the first that it finds.
//
// One name, x, is read as if it had the bytes `text`, so that what a change would make of an answer is found by reading
// alone. The sought text is lent too: its place in the store is found once, and not for every name that it is held
// against.
//
// x and `text` are no struct: each contract would take it apart, and each call from outside would put it together.
ghost use Rattle.std.specs.Prelude.{◌≡◌};
ghost use Rattle.std.proofs.Math.ListN.{get_elem?};
ghost use Rattle.words.specs.Equality.{equalb};
ghost use Rattle.spec.specs.Answer.{scope_at, text_of_name, defined_in};
ghost use Rattle.spec.specs.Calls.{set_name};
ghost use Rattle.module.specs.Ids.{name_of};
ghost use Rattle.layout.specs.Layout.{Long};
ghost use Rattle.layout.specs.States.{module_in};
ghost use Rattle.layout.specs.Keeps.{scopes_in};
ghost use Rattle.kept.specs.Walks.{names_entered};
ghost use Rattle.resolve.specs.Definitions.{only_with};

use kept::{entered_at, entered_count};
use module::{NameId, ScopeId};
use rows::{name_count, name_text};
use texts::text_is;
use words::equal;

// Whether the name y has the sought text. A number that is no name's has the empty text, and nothing can be set there.
#[tactic(auto, using(crate::proofs::SetNameLaws::another, crate::proofs::SetNameLaws::itself, crate::proofs::SetNameLaws::no_names))]
fn name_is(store: &[u8], y: NameId, sought: &[u8], x: NameId, text: &[u8]) -> bool
    requires { Long store.now }
    ensures { result ≡ equalb (text_of_name (set_name x.0 text.now (module_in store.now)) y.0) sought.now }
{
    if y.0 != x.0 {
        return text_is(store, name_text(store, y), sought);
    }
    if name_count(store) <= x.0 {
        return sought.len() == 0;
    }
    equal(text, sought)
}

// The i-th name entered in a scope, where it has the sought text.
#[tactic(auto, unfolding(crate::specs::Definitions::only_with, module::specs::Ids::name_of))]
fn entered_as(
    store: &[u8],
    s: ScopeId,
    i: u32,
    sought: &[u8],
    x: NameId,
    text: &[u8],
) -> Option<NameId>
    requires { Long store.now }
    ensures { name_of result ≡ only_with (text_of_name (set_name x.0 text.now (module_in store.now))) sought.now (get_elem? (names_entered (scope_at (scopes_in store.now).scopes s.0).kind) i) }
{
    entered_at(store, s, i).filter(|y| name_is(store, *y, sought, x, text))
}

#[tactic(auto, using(crate::proofs::DefinitionLaws::from_last, crate::proofs::DefinitionLaws::name_passed, crate::proofs::DefinitionLaws::name_lacked), unfolding(module::specs::Ids::name_of))]
pub fn defined_in(store: &[u8], s: ScopeId, sought: &[u8], x: NameId, text: &[u8]) -> Option<NameId>
    requires { Long store.now }
    ensures { name_of result ≡ defined_in (text_of_name (set_name x.0 text.now (module_in store.now))) sought.now (scope_at (scopes_in store.now).scopes s.0).kind }
{
    let n = entered_count(store, s);
    // Tried as `(0..n).rev().find_map(..)`: what the search has does not close the proof, which
    // goes by the names that are left.
    for i in (0..n).rev() {
        if let Some(y) = entered_as(store, s, i, sought, x, text) {
            return Some(y);
        }
    }
    None
}
