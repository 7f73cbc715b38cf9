// The items of an expression: of the sorts that its lists have, and a child numbered below its parent.
ghost use Rattle.std.specs.Prelude.{◌≡◌, ◌<◌, ◌≤◌};
ghost use Rattle.layout.specs.Layout.{item_limit};
ghost use Rattle.soundness.specs.Sound.{tag_fits, numbers_fit, item_fits, all_from};

use crate::counted::CountedStore;
use layout::tables::{ITEM_ROW, ITEMS};
use module::ExprId;
use rows::ItemRow;
use texts::text_fits;

// Lambdas have pattern fields; a let and the two attribute sets have bindings, whose sources of
// inherits are children; lists and attribute paths have children, and interpolations parts. Sorts and tags stay
// numbers: one that is none is what the check is for.
#[tactic(auto, unfolding(crate::specs::Sound::tag_fits))]
fn tag_fits(sort: u32, tag: u32) -> bool
    ensures { result ≡ tag_fits sort tag }
{
    match sort {
        0..=10 => false,
        11..=14 => (2 <= tag) & (tag <= 5),
        15 => (tag == 0) | ((6 <= tag) & (tag <= 9)),
        16 => tag == 0,
        17 => false,
        18..=19 => (tag == 0) | ((6 <= tag) & (tag <= 9)),
        20..=21 => false,
        22..=24 => tag == 0,
        25..=26 => false,
        _ => tag <= 1,
    }
}

impl CountedStore<'_> {
    #[tactic(auto, unfolding(crate::specs::Sound::numbers_fit, crate::specs::Sound::name_fits))]
    fn numbers_fit(&self, e: ExprId, item: ItemRow) -> bool
        ensures { result ≡ numbers_fit self.now.store.now e.0 item.tag item.a item.b }
    {
        let ItemRow { tag, a, b } = item;
        match tag {
            0 => a < e.0,
            1 => text_fits(self.store, self.counts.texts, a),
            2 => true,
            3 => a < self.counts.names,
            4 => b < e.0,
            5..=8 => (a < self.counts.names) & (b < e.0),
            _ => (a < e.0) & (b < e.0),
        }
    }

    #[tactic(auto, unfolding(crate::specs::Sound::item_fits))]
    fn item_fits(&self, e: ExprId, sort: u32, j: u32) -> bool
        requires { j < item_limit }
        ensures { result ≡ item_fits self.now.store.now e.0 sort j }
    {
        let item = ItemRow::at(self.store, ITEMS + ITEM_ROW * (j as usize));
        tag_fits(sort, item.tag) && self.numbers_fit(e, item)
    }

    // The items from `from` on, before `to`.
    pub fn items_fit(&self, e: ExprId, sort: u32, from: u32, to: u32) -> bool
        requires { to ≤ item_limit }
        ensures { result ≡ all_from (item_fits self.now.store.now e.0 sort) from to }
    {
        (from..to).all(|j| self.item_fits(e, sort, j))
    }
}
