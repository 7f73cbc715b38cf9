// What is kept beside the module: the scope of each expression, answers and references.
ghost use Rattle.std.specs.Prelude.{◌≡◌, ◌+◌, ◌*◌, ◌<◌, ◌≤◌};
ghost use Rattle.words.specs.Words.{word};
ghost use Rattle.layout.specs.Layout.{references_at, reference_limit};
ghost use Rattle.soundness.specs.Sound.{all_to, expr_fits, use_fits, kept_fits};

use crate::counted::CountedStore;
use crate::firsts::firsts_ascend;
use crate::lists::all_below;
use layout::tables::{FIRSTS, REFERENCE_LIMIT, REFERENCES, USE_ROW, USES};
use module::ExprId;
use words::get32;

impl CountedStore<'_> {
    // A scope stands one too high, with 0 for none. An answer is a name from 24 on; the numbers below are the other
    // answers (docs/STORE.md), any of which may stand here.
    #[tactic(auto, unfolding(crate::specs::Sound::use_fits))]
    fn use_fits(&self, e: ExprId) -> bool
        requires { e.0 < self.now.counts.exprs }
        ensures { result ≡ use_fits self.now.store.now e.0 }
    {
        let at = USES + USE_ROW * (e.0 as usize);
        (get32(self.store, at) <= self.counts.scopes)
            & (get32(self.store, at + 4) < 24 + self.counts.names)
    }

    fn uses_fit(&self) -> bool
        ensures { result ≡ all_to (use_fits self.now.store.now) self.now.counts.exprs }
    {
        (0..self.counts.exprs).all(|e| self.use_fits(ExprId(e)))
    }

    fn references_fit(&self, n: u32) -> bool
        requires { n ≤ reference_limit }
        ensures { result ≡ all_to (λ j. expr_fits self.now.store.now (word self.now.store.now (references_at + 4 * j))) n }
    {
        all_below(self.store, REFERENCES, n, self.counts.exprs)
    }

    #[tactic(auto, unfolding(crate::specs::Sound::kept_fits, layout::specs::Keeps::first_reference))]
    pub fn kept_fits(&self) -> bool
        ensures { result ≡ kept_fits self.now.store.now }
    {
        let names = self.counts.names;
        if !self.uses_fit() {
            return false;
        }
        if !firsts_ascend(self.store, FIRSTS, 4, names, REFERENCE_LIMIT) {
            return false;
        }
        self.references_fit(get32(self.store, FIRSTS + 4 * (names as usize)))
    }
}
