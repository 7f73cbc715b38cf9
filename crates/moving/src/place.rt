// What a new text moves, wherever it is set.
ghost use Rattle.std.specs.Prelude.{◌≡◌, length};
ghost use Rattle.spec.specs.Kept.{moved_by};
ghost use Rattle.layout.specs.Layout.{Long};
ghost use Rattle.layout.specs.Keeps.{kept_in};
ghost use Rattle.moving.specs.Moving.{Movable, Moves};
ghost use Rattle.moving.specs.Places.{place_of, Stands, Counted};

use crate::by_name::{count_moved_by_name, move_by_name};
use crate::by_reference::{count_moved_by_reference, move_by_reference};
use module::{ExprId, NameId};

// Whose text changes: Place of the definitions (Calls.antt).
#[derive(Clone, Copy)]
pub enum Place {
    Name(NameId),
    Reference(ExprId),
}

// How many answers it moves; nothing is written.
pub fn count_moved(store: &[u8], place: Place, new: &[u8]) -> u32
    requires { Long store.now × Stands (place_of place) store.now }
    ensures { result ≡ length (moved_by (kept_in store.now) (place_of place) new.now) }
{
    match place {
        Place::Name(x) => count_moved_by_name(store, x, new),
        Place::Reference(e) => count_moved_by_reference(store, e, new),
    }
}

// Moves as many as were counted, and lists them.
pub fn move_answers_of(store: &mut [u8], place: Place, new: &[u8], count: u32, moved: &mut [u8])
    requires { Long store.old × (Movable (place_of place) new.now store.old moved.old × Counted (place_of place) new.now count store.old) }
    ensures { Moves (place_of place) new.now store.old moved.old store.new moved.new }
{
    match place {
        Place::Name(x) => move_by_name(store, x, new, count, moved),
        Place::Reference(e) => move_by_reference(store, e, new, moved),
    }
}
