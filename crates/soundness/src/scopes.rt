// Scopes: a parent numbered below its child, a With among the expressions, and the names that each
// scope enters among the names.
ghost use Rattle.std.specs.Prelude.{◌≡◌, ◌+◌, ◌*◌, ◌<◌, ◌≤◌};
ghost use Rattle.words.specs.Words.{word};
ghost use Rattle.layout.specs.Layout.{entered_at, name_limit};
ghost use Rattle.soundness.specs.Sound.{all_to, name_fits, scope_fits, scopes_fit};

use crate::counted::CountedStore;
use crate::firsts::firsts_ascend;
use crate::lists::all_below;
use layout::tables::{ENTERED, NAME_LIMIT, SCOPE_ROW, SCOPES};
use module::ScopeId;
use words::get32;

impl CountedStore<'_> {
    // Parent and With stand one too high, with 0 for none.
    #[tactic(auto, unfolding(crate::specs::Sound::scope_fits))]
    fn scope_fits(&self, s: ScopeId) -> bool
        requires { s.0 < self.now.counts.scopes }
        ensures { result ≡ scope_fits self.now.store.now s.0 }
    {
        let at = SCOPES + SCOPE_ROW * (s.0 as usize);
        (get32(self.store, at + 4) <= s.0) & (get32(self.store, at + 8) <= self.counts.exprs)
    }

    fn scope_rows_fit(&self) -> bool
        ensures { result ≡ all_to (scope_fits self.now.store.now) self.now.counts.scopes }
    {
        (0..self.counts.scopes).all(|s| self.scope_fits(ScopeId(s)))
    }

    #[tactic(auto, unfolding(crate::specs::Sound::name_fits))]
    fn entered_fit(&self, n: u32) -> bool
        requires { n ≤ name_limit }
        ensures { result ≡ all_to (λ j. name_fits self.now.store.now (word self.now.store.now (entered_at + 4 * j))) n }
    {
        all_below(self.store, ENTERED, n, self.counts.names)
    }

    #[tactic(auto, unfolding(crate::specs::Sound::scopes_fit, layout::specs::Keeps::first_entered))]
    pub fn scopes_fit(&self) -> bool
        ensures { result ≡ scopes_fit self.now.store.now }
    {
        let n = self.counts.scopes;
        if !firsts_ascend(self.store, SCOPES, SCOPE_ROW, n, NAME_LIMIT) {
            return false;
        }
        let entered = get32(self.store, SCOPES + SCOPE_ROW * (n as usize));
        self.scope_rows_fit() && self.entered_fit(entered)
    }
}
