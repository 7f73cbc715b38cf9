// Whether there are Withs around a scope, and how many.
ghost use Rattle.std.specs.Prelude.{◌≡◌, ◌≤◌, length};
ghost use Rattle.spec.specs.Answer.{scope_at, chain, if_with, withs_of};
ghost use Rattle.layout.specs.Layout.{scope_limit, Long};
ghost use Rattle.layout.specs.Keeps.{scopes_in};
ghost use Rattle.resolve.specs.Withs.{some_of};

use crate::chain::ScopeChain;
use kept::scope_with;
use module::ScopeId;

// Whether a scope is that of a With.
#[tactic(auto, using(crate::proofs::WithLaws::own_with))]
fn is_with(store: &[u8], s: ScopeId) -> bool
    requires { Long store.now }
    ensures { result ≡ some_of (if_with (scope_at (scopes_in store.now).scopes s.0).kind) }
{
    scope_with(store, s).is_some()
}

// Whether there is one.
pub fn has_with(store: &[u8], s: ScopeId) -> bool
    requires { Long store.now }
    ensures { result ≡ some_of (withs_of (scopes_in store.now).scopes (chain (scopes_in store.now).scopes s.0)) }
{
    ScopeChain::new(store, s).any(|i| is_with(store, i))
}

// How many there are: no more than there are scopes. No `filter` and `count`: tried, and a chain of Withs took twice the
// instructions. Each scope adds its 1 or 0, so that the loop has no branch for it.
#[tactic(auto, using(crate::proofs::ChainLaws::one_comes, crate::proofs::WithListLaws::counting_none, crate::proofs::WithListLaws::counting_low, crate::proofs::WithLaws::few_withs))]
pub fn count_withs(store: &[u8], s: ScopeId) -> usize
    requires { Long store.now }
    ensures { (result ≡ length (withs_of (scopes_in store.now).scopes (chain (scopes_in store.now).scopes s.0))) × (result ≤ scope_limit) }
{
    let mut n = 0;
    for i in ScopeChain::new(store, s) {
        n += is_with(store, i) as usize;
    }
    n
}
