// What a new text of a Reference moves: its own answer, or none.
ghost use Rattle.std.specs.Prelude.{◌≡◌, length};
ghost use Rattle.spec.specs.Calls.{at_reference};
ghost use Rattle.spec.specs.Kept.{moved_by};
ghost use Rattle.layout.specs.Layout.{Long};
ghost use Rattle.layout.specs.Keeps.{kept_in};
ghost use Rattle.moving.specs.Moving.{Refers, MovesTo, Movable, Moves};

use crate::moved::unless_kept;
use answer::Answer;
use kept::set_answer;
use layout::tables::ABSENT;
use listing::list_references;
use module::{ExprId, NameId};
use resolve::resolve_as;
use words::put32;

// What becomes of it, as if it had the new text; every name is read as it stands.
fn moved_by_reference(store: &[u8], e: ExprId, new: &[u8]) -> Option<Answer>
    requires { Long store.now × Refers e.0 store.now }
    ensures { MovesTo (at_reference e.0) new.now e.0 store.now result }
{
    let a = resolve_as(store, e, new, NameId(ABSENT), new);
    unless_kept(store, e, a)
}

// How many answers it moves; nothing is written.
pub(crate) fn count_moved_by_reference(store: &[u8], e: ExprId, new: &[u8]) -> u32
    requires { Long store.now × Refers e.0 store.now }
    ensures { result ≡ length (moved_by (kept_in store.now) (at_reference e.0) new.now) }
{
    match moved_by_reference(store, e, new) {
        Some(_) => 1,
        None => 0,
    }
}

// Moves it and lists it; the references of names are listed anew only then.
pub(crate) fn move_by_reference(store: &mut [u8], e: ExprId, new: &[u8], moved: &mut [u8])
    requires { Long store.old × (Refers e.0 store.old × Movable (at_reference e.0) new.now store.old moved.old) }
    ensures { Moves (at_reference e.0) new.now store.old moved.old store.new moved.new }
{
    match moved_by_reference(store, e, new) {
        Some(a) => {
            set_answer(store, e, a);
            put32(moved, 0, e.0);
            list_references(store);
        }
        None => {}
    }
}
