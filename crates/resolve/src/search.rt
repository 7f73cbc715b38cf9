// The innermost definition of a text: an inner one hides an outer one of the same text. As in definitions.rt, one name,
// x, is read as if it had the bytes `text`.
ghost use Rattle.std.specs.Prelude.{◌≡◌};
ghost use Rattle.spec.specs.Answer as answer;
ghost use Rattle.spec.specs.Answer.{text_of_name, chain};
ghost use Rattle.spec.specs.Calls.{set_name};
ghost use Rattle.layout.specs.Layout.{Long};
ghost use Rattle.layout.specs.States.{module_in};
ghost use Rattle.layout.specs.Keeps.{scopes_in};
ghost use Rattle.resolve.specs.Search.{found_of};

use crate::chain::ScopeChain;
use crate::definitions::defined_in;
use module::{NameId, ScopeId};

#[tactic(auto, using(crate::proofs::ChainLaws::one_comes, crate::proofs::ChainLaws::none_comes, crate::proofs::IdLaws::a_name_lem, crate::proofs::IdLaws::no_name, crate::proofs::SearchLaws::search_here, crate::proofs::SearchLaws::search_on), unfolding(crate::specs::Search::found_of, spec::specs::Answer::innermost))]
pub fn innermost(
    store: &[u8],
    s: ScopeId,
    sought: &[u8],
    x: NameId,
    text: &[u8],
) -> Option<(ScopeId, NameId)>
    requires { Long store.now }
    ensures { found_of result ≡ answer.innermost (text_of_name (set_name x.0 text.now (module_in store.now))) (scopes_in store.now).scopes sought.now (chain (scopes_in store.now).scopes s.0) }
{
    // A With defines no name, so that the search goes on outside of it.
    // No `find_map`: it would nest two closures, the inner one to pair a name with its scope.
    for i in ScopeChain::new(store, s) {
        if let Some(y) = defined_in(store, i, sought, x, text) {
            return Some((i, y));
        }
    }
    None
}
