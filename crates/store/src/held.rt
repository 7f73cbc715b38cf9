// Rows are written with texts that lie within the bytes in use. Another number reads as the empty text, and the mark
// for the empty text is written in its place, so that what lowering leaves is sound whatever it was given. The tests are
// on the numbers of a row, since the contracts are about its words: a match on the Expr would look for texts at two
// levels, its own and the Literal's, and be no plainer.
ghost use Rattle.std.specs.Prelude.{◌≡◌};
ghost use Rattle.layout.specs.Layout.{Long};
ghost use Rattle.store.specs.Codes.{has_text, HeldRow, HeldItem};

use rows::{ItemRow, Row};
use texts::held_text;

const TEXT_PART: u32 = 1;

// Literal String, Literal Path and Reference.
#[tactic(auto, unfolding(crate::specs::Codes::has_text))]
fn has_text(sort: u32) -> bool
    ensures { result ≡ has_text sort }
{
    sort == 6 || sort == 7 || sort == 21
}

#[tactic(auto, using(crate::proofs::HeldLaws::row_itself))]
pub fn held_row(store: &[u8], row: Row) -> Row
    requires { Long store.now }
    ensures { HeldRow row store.now result }
{
    if has_text(row.sort) {
        return Row {
            a: held_text(store, row.a),
            ..row
        };
    }
    row
}

pub fn held_item(store: &[u8], row: ItemRow) -> ItemRow
    requires { Long store.now }
    ensures { HeldItem row store.now result }
{
    if row.tag == TEXT_PART {
        return ItemRow {
            a: held_text(store, row.a),
            ..row
        };
    }
    row
}
