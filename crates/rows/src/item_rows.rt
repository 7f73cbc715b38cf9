// How an item lies in its row, with the tags of docs/STORE.md: decode.rt the other way round, and the one place where a
// tag is written.
ghost use Rattle.std.specs.Prelude.{◌≡◌};
ghost use Rattle.rows.specs.Decoded.{SaysItem};

use crate::row::ItemRow;
use module::{BindingValue, ExprId, Item, NameId};

// Without and with a name, each without and with a default.
#[tactic(auto, unfolding(layout::specs::Exprs::item_of, crate::specs::Decoded::item_with, module::specs::Ids::name_of, module::specs::Ids::expr_of))]
fn field_row(x: Option<NameId>, default: Option<ExprId>) -> ItemRow
    ensures { SaysItem result (Item.Field x default) }
{
    match x {
        None => match default {
            None => ItemRow { tag: 2, a: 0, b: 0 },
            Some(d) => ItemRow {
                tag: 4,
                a: 0,
                b: d.0,
            },
        },
        Some(n) => match default {
            None => ItemRow {
                tag: 3,
                a: n.0,
                b: 0,
            },
            Some(d) => ItemRow {
                tag: 5,
                a: n.0,
                b: d.0,
            },
        },
    }
}

#[tactic(auto, unfolding(layout::specs::Exprs::item_of, crate::specs::Decoded::item_with, module::specs::Ids::binding_of))]
fn static_row(x: NameId, v: BindingValue) -> ItemRow
    ensures { SaysItem result (Item.Static x v) }
{
    match v {
        BindingValue::Expr(e) => ItemRow {
            tag: 6,
            a: x.0,
            b: e.0,
        },
        BindingValue::Inherit(e) => ItemRow {
            tag: 7,
            a: x.0,
            b: e.0,
        },
        BindingValue::InheritFrom(e) => ItemRow {
            tag: 8,
            a: x.0,
            b: e.0,
        },
    }
}

impl From<Item> for ItemRow {
    ghost from_gives = { λ i row. SaysItem row i };

    #[tactic(auto, unfolding(layout::specs::Exprs::item_of, crate::specs::Decoded::item_with))]
    fn from(i: Item) -> ItemRow {
        match i {
            Item::Child(e) => ItemRow {
                tag: 0,
                a: e.0,
                b: 0,
            },
            Item::Text(t) => ItemRow {
                tag: 1,
                a: t.0,
                b: 0,
            },
            Item::Field(x, default) => field_row(x, default),
            Item::Static(x, v) => static_row(x, v),
            Item::Dynamic(k, v) => ItemRow {
                tag: 9,
                a: k.0,
                b: v.0,
            },
        }
    }
}
