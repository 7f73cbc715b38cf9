// Expressions are read: the row, the pointer, the items.
ghost use Rattle.std.specs.Prelude.{◌≡◌, ◌+◌, ◌≤◌, ◌<◌, length, MatchOption};
ghost use Rattle.spec.specs.Scopes.{made_at, expr_at};
ghost use Rattle.spec.specs.Answer.{reference_text};
ghost use Rattle.layout.specs.Layout.{expr_limit, item_limit, Long};
ghost use Rattle.layout.specs.Texts.{text_in, maybe_text};
ghost use Rattle.layout.specs.Exprs.{item_at, made_in};
ghost use Rattle.layout.specs.States.{module_in};
ghost use Rattle.rows.specs.Decoded.{expr_with, item_with, ValidExpr};
ghost use Rattle.rows.specs.Readers.{NoReference, ReferenceAt, items_at_expr, item_at_expr, maybe_pointer_of, Covers};

use crate::read_counts::expr_count;
use crate::row::{ItemRow, Row};
use layout::tables::{EXPR_POINTERS, EXPR_ROW, EXPRS, ITEM_LIMIT, ITEM_ROW, ITEMS, POINTER_ROW};
use layout::{get_pointer, in_use};
use module::{Expr, ExprId, Item, Pointer, TextId};
use words::get32;

// The sort of a Reference. It is compared as a number, since of its row only the text is wanted.
pub const REFERENCE: u32 = 21;

// Where the items of an expression lie in their table, and how many there are.
#[derive(Clone, Copy)]
pub struct Items {
    pub first: u32,
    pub count: u32,
}

// The expression but for its items; out of range it is Missing, as in the definitions.
#[tactic(auto, using(crate::proofs::ReadLaws::expr_in, crate::proofs::ReadLaws::expr_out))]
pub fn read_expr(store: &[u8], e: ExprId) -> Expr
    requires { Long store.now }
    ensures { (expr_with (text_in store.now) result (items_at_expr store.now e.0) ≡ expr_at (module_in store.now) e.0) × ValidExpr result }
{
    let n = e.0;
    if expr_count(store) <= n {
        return Expr::Missing;
    }
    Expr::from(Row::at(store, EXPRS + EXPR_ROW * n as usize))
}

// The pointer in the row of the expression n. Of sort 0 there is none, whatever its row of pointers holds.
#[tactic(auto, using(crate::proofs::ReadLaws::row_unpointed, crate::proofs::ReadLaws::row_pointed), unfolding(crate::specs::Readers::maybe_pointer_of))]
pub fn row_pointer(store: &[u8], n: u32) -> Option<Pointer>
    requires { Long store.now × (n < expr_limit) }
    ensures { maybe_pointer_of result ≡ (made_in store.now n).pointer }
{
    if get32(store, EXPRS + EXPR_ROW * n as usize + 4) == 0 {
        return None;
    }
    Some(get_pointer(store, EXPR_POINTERS + POINTER_ROW * n as usize))
}

#[tactic(auto, using(crate::proofs::ReadLaws::pointer_out, crate::proofs::ReadLaws::pointer_in), unfolding(crate::specs::Readers::maybe_pointer_of))]
pub fn expr_pointer(store: &[u8], e: ExprId) -> Option<Pointer>
    requires { Long store.now }
    ensures { maybe_pointer_of result ≡ (made_at (module_in store.now) e.0).pointer }
{
    let n = e.0;
    if expr_count(store) <= n {
        return None;
    }
    row_pointer(store, n)
}

// Where the word stands that is the text of the Reference e; nowhere if e is no Reference.
#[tactic(auto, using(crate::proofs::ReferenceLaws::exprs_cap, crate::proofs::ReferenceLaws::no_row, crate::proofs::ReferenceLaws::other_row, crate::proofs::ReferenceLaws::reference_row))]
pub fn reference_place(store: &[u8], e: ExprId) -> Option<usize>
    requires { Long store.now }
    ensures { MatchOption result (NoReference store.now e.0) (λ at. ReferenceAt store.now e.0 at) }
{
    let n = e.0;
    if expr_count(store) <= n {
        return None;
    }
    let at = EXPRS + EXPR_ROW * n as usize;
    if get32(store, at + 4) != REFERENCE {
        return None;
    }
    Some(at + 8)
}

// The text of a Reference; none of an expression that is no Reference.
#[tactic(auto, using(crate::proofs::ReferenceLaws::place_within, crate::proofs::ReferenceLaws::no_text, crate::proofs::ReferenceLaws::text_placed), unfolding(layout::specs::Texts::maybe_text))]
pub fn reference_text(store: &[u8], e: ExprId) -> Option<TextId>
    requires { Long store.now }
    ensures { maybe_text store.now result ≡ reference_text (expr_at (module_in store.now) e.0) }
{
    match reference_place(store, e) {
        None => None,
        Some(at) => Some(TextId(get32(store, at))),
    }
}

// They end where those of the next row begin.
#[tactic(auto, using(crate::proofs::ReadLaws::items_none, crate::proofs::ReadLaws::items_some))]
fn items_of(store: &[u8], e: ExprId) -> Items
    requires { Long store.now }
    ensures { Covers store.now e.0 result }
{
    let n = e.0;
    if expr_count(store) <= n {
        return Items { first: 0, count: 0 };
    }
    let at = EXPRS + EXPR_ROW * n as usize;
    let first = in_use(store, at, ITEM_LIMIT);
    let end = in_use(store, at + EXPR_ROW, ITEM_LIMIT);
    Items {
        first,
        count: end.saturating_sub(first),
    }
}

#[tactic(auto, using(crate::proofs::ReadLaws::covers_count))]
pub fn item_count(store: &[u8], e: ExprId) -> u32
    requires { Long store.now }
    ensures { (result ≡ length (items_at_expr store.now e.0)) × (result ≤ item_limit) }
{
    items_of(store, e).count
}

// The item whose row is at `at`.
#[tactic(auto, unfolding(layout::specs::Exprs::item_at))]
fn get_item(store: &[u8], at: usize) -> Item
    requires { at + 12 ≤ length store.now }
    ensures { item_with (text_in store.now) result ≡ item_at store.now at }
{
    Item::from(ItemRow::at(store, at))
}

// Of an expression's items the one with the number i; out of range the child 0.
#[tactic(auto, using(crate::proofs::ReadLaws::item_in_lem, crate::proofs::ReadLaws::item_out), unfolding(crate::specs::Decoded::item_with))]
pub fn read_item(store: &[u8], e: ExprId, i: u32) -> Item
    requires { Long store.now }
    ensures { item_with (text_in store.now) result ≡ item_at_expr store.now e.0 i }
{
    let items = items_of(store, e);
    if items.count <= i {
        return Item::Child(ExprId(0));
    }
    get_item(store, ITEMS + ITEM_ROW * (items.first + i) as usize)
}
