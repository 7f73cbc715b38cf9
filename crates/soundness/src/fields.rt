// The three words of an expression's row, by its sort: a child is numbered below its parent.
ghost use Rattle.std.specs.Prelude.{◌≡◌, leb};
ghost use Rattle.layout.specs.Exprs.{wide};
ghost use Rattle.soundness.specs.Sound.{fields_fit};

use crate::counted::CountedStore;
use module::{ExprId, INFINITY_BITS, LARGEST_INTEGER};
use rows::{Row, joined};
use texts::text_fits;

// A number of two words, the higher first, against a limit of two words.
fn wide_within(hi: u32, lo: u32, limit: u64) -> bool
    ensures { result ≡ leb (wide hi lo) limit }
{
    joined(hi, lo) <= limit
}

impl CountedStore<'_> {
    // There are 15 binary operators and 2 unary ones. The sort stays a number: one that is none is what the check is
    // for. Neighbouring sorts stand in different arms, so that all arms together are one table of jumps.
    #[tactic(auto, unfolding(crate::specs::Sound::fields_fit, crate::specs::Sound::name_fits))]
    pub fn fields_fit(&self, e: ExprId, row: Row) -> bool
        ensures { result ≡ fields_fit self.now.store.now e.0 row.sort row.a row.b row.c }
    {
        let Row { sort, a, b, c } = row;
        match sort {
            0 | 8 | 16 | 18 => true,
            1 | 19 => true,
            2 | 23 | 25 => (a < e.0) & (b < e.0),
            26 => (a < e.0) & (b < e.0),
            3 => (a < e.0) & ((b < e.0) & (c < e.0)),
            4 => wide_within(a, b, INFINITY_BITS),
            5 => wide_within(a, b, LARGEST_INTEGER),
            6 | 21 => text_fits(self.store, self.counts.texts, a),
            7 => text_fits(self.store, self.counts.texts, a),
            9 | 11 | 13 | 15 | 22 | 24 => a < e.0,
            10 | 12 | 14 => (a < e.0) & (b < self.counts.names),
            17 => (a < e.0) & ((b < e.0) & ((1 <= c) & (c <= 15))),
            20 => (1 <= a) & ((a <= 2) & (b < e.0)),
            _ => sort <= 28,
        }
    }
}
