// Names and diagnostics: each has a text, and a name one of the five kinds.
ghost use Rattle.std.specs.Prelude.{◌≡◌, ◌+◌, ◌*◌, ◌<◌};
ghost use Rattle.words.specs.Words.{word};
ghost use Rattle.layout.specs.Layout.{diagnostic_row, diagnostics_at};
ghost use Rattle.texts.specs.Fits.{text_fits};
ghost use Rattle.soundness.specs.Sound.{name_row_fits, names_fit, diagnostics_fit};

use crate::counted::CountedStore;
use layout::tables::{DIAGNOSTIC_ROW, DIAGNOSTICS, NAME_ROW, NAMES};
use module::NameId;
use texts::text_fits;
use words::get32;

impl CountedStore<'_> {
    // The kinds are the numbers 0 to 4 (NameKind in module). A kind is compared as a number, since one that is none is
    // what the check is for.
    #[tactic(auto, unfolding(crate::specs::Sound::name_row_fits))]
    fn name_row_fits(&self, x: NameId) -> bool
        requires { x.0 < self.now.counts.names }
        ensures { result ≡ name_row_fits self.now.store.now x.0 }
    {
        let at = NAMES + NAME_ROW * (x.0 as usize);
        let kind = get32(self.store, at + 4);
        text_fits(self.store, self.counts.texts, get32(self.store, at)) & (kind <= 4)
    }

    pub fn names_fit(&self) -> bool
        ensures { result ≡ names_fit self.now.store.now }
    {
        (0..self.counts.names).all(|x| self.name_row_fits(NameId(x)))
    }

    fn diagnostic_fits(&self, i: u32) -> bool
        requires { i < self.now.counts.diagnostics }
        ensures { result ≡ text_fits self.now.store.now (word self.now.store.now (diagnostics_at + diagnostic_row * i)) }
    {
        let text = get32(self.store, DIAGNOSTICS + DIAGNOSTIC_ROW * (i as usize));
        text_fits(self.store, self.counts.texts, text)
    }

    pub fn diagnostics_fit(&self) -> bool
        ensures { result ≡ diagnostics_fit self.now.store.now }
    {
        (0..self.counts.diagnostics).all(|i| self.diagnostic_fits(i))
    }
}
