// Expressions are appended: a row, its pointer, and the items that waited for it; and a Reference gets another text.
// With no room alloc_expr and alloc_missing give the limit, a number that no expression has, as alloc_name in names.rt
// does: a tree that was accepted has room for all, so an Option would ask every caller to look for what doesn't happen.
ghost use Rattle.std.specs.Prelude.{◌≡◌, true, ◌+◌, ◌*◌, ◌≤◌, ◌<◌, length, drop};
ghost use Rattle.std.proofs.Math.Option.{none, some};
ghost use Rattle.words.specs.Words.{word};
ghost use Rattle.module.specs.Ids.{pointer_of};
ghost use Rattle.layout.specs.Layout.{expr_limit, item_limit, waiting_limit, Long};
ghost use Rattle.layout.specs.Texts.{text_in};
ghost use Rattle.layout.specs.States.{waiting_of};
ghost use Rattle.soundness.specs.Coded.{fields_coded};
ghost use Rattle.rows.specs.Decoded.{ValidExpr, item_with};
ghost use Rattle.store.specs.Codes.{sort_for, row_made, expr_made, hole_made};
ghost use Rattle.store.specs.TextChanges.{Reworded};
ghost use Rattle.store.specs.Work.{Did, Takes, push_item, take_lone, Took, PutRow};

use crate::codes::row_of;
use crate::held::{held_item, held_row};
use layout::tables::{
    EXPR_COUNT, EXPR_LIMIT, EXPR_POINTERS, EXPR_ROW, EXPRS, ITEM_LIMIT, ITEM_ROW, ITEMS,
    POINTER_ROW, WAITING, WAITING_COUNT, WAITING_LIMIT,
};
use layout::{counter, in_use, put_pointer, put_words};
use module::{Counter, Expr, ExprId, Item, Pointer, TextId};
use rows::{ItemRow, Row, reference_place};
use words::{get32, move_run, put32};

// How many items wait for their expression.
#[tactic(auto, using(crate::proofs::ExprLaws::waiting_counted))]
pub fn waiting_count(store: &[u8]) -> u32
    requires { Long store.now }
    ensures { result ≡ length (waiting_of store.now) }
{
    in_use(store, WAITING_COUNT, WAITING_LIMIT)
}

// One more item waits.
#[tactic(auto, using(crate::proofs::ExprLaws::item_unpushed, module::proofs::CounterLaws::room_left, module::proofs::CounterLaws::room_gone))]
pub fn push_item(store: &mut [u8], i: Item)
    requires { Long store.old }
    ensures { Did (push_item (item_with (text_in store.old) i)) store.old tt store.new }
{
    let count = counter(store, WAITING_COUNT);
    if count.has_room(WAITING_LIMIT) {
        let row = held_item(store, ItemRow::from(i));
        let next = count.next();
        put_words(
            store,
            WAITING + ITEM_ROW * count.used as usize,
            [row.tag, row.a, row.b],
        );
        put32(store, WAITING_COUNT, next.used);
    }
}

// How many wait from `base` on.
#[tactic(auto, using(crate::proofs::ExprLaws::waiting_left, crate::proofs::ExprLaws::waiting_within))]
fn waiting_from(store: &[u8], base: u32) -> u32
    requires { Long store.now }
    ensures { (result ≡ length (drop base (waiting_of store.now))) × (result ≤ waiting_limit) }
{
    waiting_count(store).saturating_sub(base)
}

// The items that wait from `base` on are put in use.
#[tactic(auto, using(crate::proofs::ExprLaws::took_none, crate::proofs::ExprLaws::waiting_left, crate::proofs::ExprLaws::waiting_within))]
fn take_items(store: &mut [u8], base: u32, count: u32, first: u32)
    requires { Long store.old × (first + count ≤ item_limit) × (count ≡ length (drop base (waiting_of store.old))) }
    ensures { Took base count first store.old store.new }
{
    if 0 < count {
        move_run(
            store,
            WAITING + ITEM_ROW * base as usize,
            ITEMS + ITEM_ROW * first as usize,
            ITEM_ROW * count as usize,
        );
        put32(store, WAITING_COUNT, base);
    }
}

// The row of the next expression, whose items end at `end`.
#[tactic(auto, using(crate::proofs::ExprLaws::row_put))]
fn put_row(store: &mut [u8], count: Counter, end: u32, row: Row, p: Pointer)
    requires { Long store.old × (count.used < expr_limit) }
    ensures { PutRow count.used end row (pointer_of p) store.old store.new }
{
    let n = count.used as usize;
    let next = count.next();
    put_words(
        store,
        EXPRS + EXPR_ROW * n + 4,
        [row.sort, row.a, row.b, row.c, end],
    );
    put_pointer(store, EXPR_POINTERS + POINTER_ROW * n, p);
    put32(store, EXPR_COUNT, next.used);
}

// An expression whose items are those that wait from `base` on.
#[tactic(auto, using(crate::proofs::ExprLaws::did_where, crate::proofs::ExprLaws::row_full, module::proofs::CounterLaws::room_left, module::proofs::CounterLaws::room_gone))]
fn alloc_row(store: &mut [u8], row: Row, base: u32, p: Pointer) -> ExprId
    requires { Long store.old × (fields_coded store.old row.sort row.a row.b ≡ true) }
    ensures { Takes row.sort (row_made store.old row (pointer_of p)) base store.old result.0 store.new }
{
    let count = counter(store, EXPR_COUNT);
    if count.has_room(EXPR_LIMIT) {
        let first = get32(store, EXPRS + EXPR_ROW * count.used as usize);
        let waiting = waiting_from(store, base);
        if first <= ITEM_LIMIT - waiting {
            take_items(store, base, waiting, first);
            put_row(store, count, first + waiting, row, p);
            return ExprId(count.used);
        }
        return ExprId(EXPR_LIMIT);
    }
    ExprId(EXPR_LIMIT)
}

// alloc_expr: an expression with a pointer, whose items are those that wait from `base` on.
pub fn alloc_expr(store: &mut [u8], e: Expr, base: u32, p: Pointer) -> ExprId
    requires { Long store.old × ValidExpr e }
    ensures { Takes (sort_for e) (expr_made store.old e (pointer_of p)) base store.old result.0 store.new }
{
    let row = held_row(store, row_of(e));
    alloc_row(store, row, base, p)
}

// "Missing without a pointer": it has no items, and leaves those that wait.
#[tactic(auto, unfolding(soundness::specs::Coded::fields_coded))]
pub fn alloc_missing(store: &mut [u8]) -> ExprId
    requires { Long store.old }
    ensures { Did (take_lone hole_made) store.old result.0 store.new }
{
    let base = waiting_count(store);
    alloc_row(
        store,
        Row {
            sort: 0,
            a: 0,
            b: 0,
            c: 0,
        },
        base,
        Pointer::default(),
    )
}

// The expression e, if it is a Reference, has another text.
#[tactic(auto, using(rows::proofs::ReferenceLaws::place_within, crate::proofs::TextChangeLaws::no_reference))]
pub fn set_reference_text(store: &mut [u8], e: ExprId, t: TextId)
    requires { Long store.old }
    ensures { Reworded e.0 t.0 store.old store.new }
{
    if let Some(at) = reference_place(store, e) {
        put32(store, at, t.0);
    }
}
