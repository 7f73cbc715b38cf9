// Expressions: first where their items begin, so that no item is gone over twice; then row by row.
ghost use Rattle.std.specs.Prelude.{◌≡◌, true, ◌<◌};
ghost use Rattle.layout.specs.Layout.{item_limit};
ghost use Rattle.layout.specs.Exprs.{first_item};
ghost use Rattle.soundness.specs.Sound.{all_to, ascends, row_fits, exprs_fit};

use crate::counted::CountedStore;
use crate::firsts::firsts_ascend;
use layout::tables::{EXPR_ROW, EXPRS, ITEM_LIMIT};
use module::ExprId;
use rows::Row;
use words::get32;

impl CountedStore<'_> {
    // A row, and the items from its own first one to the next row's.
    #[tactic(auto, unfolding(crate::specs::Sound::row_fits, layout::specs::Exprs::first_item, layout::specs::Exprs::sort_of))]
    fn row_fits(&self, e: ExprId) -> bool
        requires { (e.0 < self.now.counts.exprs) × (ascends (first_item self.now.store.now) self.now.counts.exprs item_limit ≡ true) }
        ensures { result ≡ row_fits self.now.store.now e.0 }
    {
        let at = EXPRS + EXPR_ROW * (e.0 as usize);
        let row = Row::at(self.store, at);
        if !self.fields_fit(e, row) {
            return false;
        }
        let first = get32(self.store, at);
        let next = get32(self.store, at + EXPR_ROW);
        self.items_fit(e, row.sort, first, next)
    }

    fn rows_fit(&self) -> bool
        requires { ascends (first_item self.now.store.now) self.now.counts.exprs item_limit ≡ true }
        ensures { result ≡ all_to (row_fits self.now.store.now) self.now.counts.exprs }
    {
        (0..self.counts.exprs).all(|e| self.row_fits(ExprId(e)))
    }

    #[tactic(auto, unfolding(crate::specs::Sound::exprs_fit, layout::specs::Exprs::first_item))]
    pub fn exprs_fit(&self) -> bool
        ensures { result ≡ exprs_fit self.now.store.now }
    {
        let n = self.counts.exprs;
        firsts_ascend(self.store, EXPRS, EXPR_ROW, n, ITEM_LIMIT) && self.rows_fit()
    }
}
