// A store whose counts are within their limits, so that every row that they count lies in it.
ghost use Rattle.soundness.specs.SoundCounts.{Counted};

use crate::counts::{Counts, counts_fit, counts_of};
use layout::tables::ENTRY_PLACE;
use words::get32;

#[derive(Clone, Copy)]
pub struct CountedStore<'a> {
    pub store: &'a [u8],
    pub counts: Counts,
    ghost counted: { Counted store.now counts },
}

impl<'a> CountedStore<'a> {
    ghost use Rattle.std.specs.Prelude.{◌≡◌, true, false, MatchOption};
    ghost use Rattle.layout.specs.Layout.{Long};
    ghost use Rattle.soundness.specs.Sound.{counts_fit, entry_fits};

    // None where a count is over its limit.
    pub fn new(store: &'a [u8]) -> Option<Self>
        requires { Long store.now }
        ensures { MatchOption result (counts_fit store.now ≡ false) (λ c. (counts_fit store.now ≡ true) × (c.store.now ≡ store.now)) }
    {
        let counts = counts_of(store);
        if !counts_fit(store, counts) {
            return None;
        }
        Some(CountedStore { store, counts })
    }

    // With no expression there is no entry.
    #[tactic(auto, unfolding(crate::specs::Sound::entry_fits, crate::specs::Sound::expr_fits))]
    pub fn entry_fits(&self) -> bool
        ensures { result ≡ entry_fits self.now.store.now }
    {
        (self.counts.exprs == 0) | (get32(self.store, ENTRY_PLACE) < self.counts.exprs)
    }
}
