// A scope and the scopes around it, from the inner one outwards.
ghost use Rattle.layout.specs.Layout.{Long};

use kept::scope_parent;
use module::ScopeId;

// The chain of a scope, as docs/RULES.md calls it, one scope after the other.
#[derive(Clone, Copy)]
pub struct ScopeChain<'a> {
    store: &'a [u8],
    // The scope that came last; before any came, the first one.
    at: ScopeId,
    begun: bool,
    // How many more may follow it.
    left: u32,
    ghost long: { Long store.now },
}

impl<'a> ScopeChain<'a> {
    ghost use Rattle.std.specs.Prelude.{◌≡◌};
    ghost use Rattle.spec.specs.Answer.{chain};
    ghost use Rattle.layout.specs.Keeps.{scopes_in};
    ghost use Rattle.resolve.specs.Chain.{scopes_left};

    // From s on. A parent has a lower number in a sound store: so no more are followed than the number of s, and every
    // walk ends, also where parents go round.
    #[tactic(auto, unfolding(crate::specs::Chain::scopes_left, crate::specs::Chain::scopes_around, spec::specs::Answer::chain, spec::specs::Answer::chain_to))]
    pub fn new(store: &'a [u8], s: ScopeId) -> ScopeChain<'a>
        requires { Long store.now }
        ensures { scopes_left result ≡ chain (scopes_in store.now).scopes s.0 }
    {
        ScopeChain {
            store,
            at: s,
            begun: false,
            left: s.0,
        }
    }
}

impl<'a> Iterator for ScopeChain<'a> {
    ghost use Rattle.std.specs.Iterator.{YieldsFirstBy, item_count};
    ghost use Rattle.resolve.specs.Chain.{scopes_left};

    type Item = ScopeId;

    ghost next_gives = { YieldsFirstBy (λ s. s.0) scopes_left };

    ghost remaining = { item_count scopes_left };

    #[tactic(auto, using(crate::proofs::ChainLaws::chain_none), unfolding(crate::specs::Chain::scopes_left, crate::specs::Chain::scopes_around, spec::specs::Answer::chain_to, module::specs::Ids::scope_of))]
    fn next(&mut self) -> Option<ScopeId> {
        if !self.begun {
            self.begun = true;
            return Some(self.at);
        }
        if self.left == 0 {
            return None;
        }
        self.left -= 1;
        self.at = scope_parent(self.store, self.at)?;
        Some(self.at)
    }
}
