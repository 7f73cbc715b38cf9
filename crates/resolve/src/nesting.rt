// Whether a scope lies within another: whether that other one is itself or one of those around it.
ghost use Rattle.std.specs.Prelude.{◌≡◌};
ghost use Rattle.spec.specs.Scopes.{is_in};
ghost use Rattle.spec.specs.Answer.{chain};
ghost use Rattle.spec.specs.Moved as moved;
ghost use Rattle.module.specs.Ids.{scope_of};
ghost use Rattle.layout.specs.Layout.{Long};
ghost use Rattle.layout.specs.Keeps.{scopes_in};

use crate::chain::ScopeChain;
use module::ScopeId;

// Whether `held` is s or a scope around it.
fn surrounds(store: &[u8], held: ScopeId, s: ScopeId) -> bool
    requires { Long store.now }
    ensures { result ≡ is_in held.0 (chain (scopes_in store.now).scopes s.0) }
{
    ScopeChain::new(store, s).any(|i| held.0 == i.0)
}

// What has no scope is within none, and nothing is within no scope.
#[tactic(auto, unfolding(spec::specs::Moved::within, module::specs::Ids::scope_of))]
pub fn within(store: &[u8], held: Option<ScopeId>, s: Option<ScopeId>) -> bool
    requires { Long store.now }
    ensures { result ≡ moved.within (scopes_in store.now) (scope_of held) (scope_of s) }
{
    match (held, s) {
        (Some(held), Some(s)) => surrounds(store, held, s),
        _ => false,
    }
}
