// What a new text of a name moves.
ghost use Rattle.std.specs.Prelude.{◌≡◌, [], length};
ghost use Rattle.spec.specs.Calls.{at_name};
ghost use Rattle.spec.specs.Moved.{cons_if};
ghost use Rattle.spec.specs.Kept.{moved_by};
ghost use Rattle.layout.specs.Layout.{Long};
ghost use Rattle.layout.specs.Keeps.{kept_in};
ghost use Rattle.moving.specs.Moving.{differs, About, MovesTo, Fits, MovesOne, MovesAnswers, Movable, Moves};

use crate::moved::unless_kept;
use crate::named::{Named, find_name, may_move};
use answer::Answer;
use kept::set_answer;
use listing::list_references;
use module::{ExprId, NameId};
use resolve::resolve_renamed;
use rows::{expr_count, reference_text};
use words::put32;

// What becomes of one answer, as if the name had the new text. `About store.now x` stands in each contract, as `Long`
// does: a type that carried it would have to hold the store.
fn moved_by_name(store: &[u8], e: ExprId, x: Named, new: &[u8]) -> Option<Answer>
    requires { Long store.now × About store.now x }
    ensures { MovesTo (at_name x.name.0) new.now e.0 store.now result }
{
    if !may_move(store, e, x, new) {
        return None;
    }
    let Some(t) = reference_text(store, e) else {
        return None;
    };
    let a = resolve_renamed(store, e, t, x.name, new);
    unless_kept(store, e, a)
}

// Most expressions are no References, and are left at once.
fn count_one(store: &[u8], e: ExprId, x: Named, new: &[u8]) -> u32
    requires { Long store.now × About store.now x }
    ensures { result ≡ length (cons_if (differs (kept_in store.now) (at_name x.name.0) new.now e.0) e.0 []) }
{
    let Some(_) = reference_text(store, e) else {
        return 0;
    };
    match moved_by_name(store, e, x, new) {
        Some(_) => 1,
        None => 0,
    }
}

// How many answers it moves; nothing is written. No `filter(..).count()`: it gives a usize, and that the number fits the
// u32 of a reply would be one more thing to prove.
pub(crate) fn count_moved_by_name(store: &[u8], x: NameId, new: &[u8]) -> u32
    requires { Long store.now }
    ensures { result ≡ length (moved_by (kept_in store.now) (at_name x.0) new.now) }
{
    let name = find_name(store, x);
    let mut count: u32 = 0;
    for e in 0..expr_count(store) {
        count += count_one(store, ExprId(e), name, new);
    }
    count
}

// Moves one answer, where it is another, and lists it as number n.
fn move_one(store: &mut [u8], e: ExprId, x: Named, new: &[u8], moved: &mut [u8], n: usize) -> usize
    requires { Long store.old × (About store.old x × Fits (differs (kept_in store.old) (at_name x.name.0) new.now e.0) n moved.old) }
    ensures { MovesOne (at_name x.name.0) new.now e.0 n store.old moved.old result store.new moved.new }
{
    let Some(_) = reference_text(store, e) else {
        return n;
    };
    match moved_by_name(store, e, x, new) {
        Some(a) => {
            set_answer(store, e, a);
            put32(moved, 4 * n, e.0);
            n + 1
        }
        None => n,
    }
}

// Moves all of them, in the order of their numbers.
fn move_answers(store: &mut [u8], x: NameId, new: &[u8], moved: &mut [u8])
    requires { Long store.old × Movable (at_name x.0) new.now store.old moved.old }
    ensures { MovesAnswers (at_name x.0) new.now store.old moved.old store.new moved.new }
{
    let name = find_name(store, x);
    let mut count: usize = 0;
    for e in 0..expr_count(store) {
        count = move_one(store, ExprId(e), name, new, moved, count);
    }
}

// As many as were counted; the references of names are listed anew only if there are any.
pub(crate) fn move_by_name(store: &mut [u8], x: NameId, new: &[u8], count: u32, moved: &mut [u8])
    requires { Long store.old × (Movable (at_name x.0) new.now store.old moved.old × (count ≡ length (moved_by (kept_in store.old) (at_name x.0) new.now))) }
    ensures { Moves (at_name x.0) new.now store.old moved.old store.new moved.new }
{
    if count == 0 {
        return;
    }
    move_answers(store, x, new, moved);
    list_references(store);
}
