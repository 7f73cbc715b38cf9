// One text put in place of another: the answers that it moves are moved and listed, a row gets it, and its length is
// spent. Whether a change may be made is its caller's to check.
#![tactic(auto)]

ghost use Rattle.layout.specs.Layout.{Long};
ghost use Rattle.moving.specs.Places.{place_of, Counted};
ghost use Rattle.put_text.specs.Changed.{SetsText, Spends, Changeable, Changes};

use kept::{set_spent, spent};
use layout::tables::ROOM_LIMIT;
use module::TextId;
use moving::{Place, move_answers_of};
use store::{set_name_text, set_reference_text};
use texts::add_text;

// The change room of a store, as a number of bytes.
pub const ROOM: usize = ROOM_LIMIT as usize;

// So much more of the change room is spent; nothing where that is more than there is in all.
fn spend(store: &mut [u8], n: usize)
    requires { Long store.old }
    ensures { Spends n store.old store.new }
{
    let before = spent(store);
    if ROOM_LIMIT < before {
        return;
    }
    if ROOM < n {
        return;
    }
    set_spent(store, before + n as u32);
}

// The row of a name or of a Reference gets a text that is stored.
fn set_text(store: &mut [u8], place: Place, t: TextId)
    requires { Long store.old }
    ensures { SetsText (place_of place) t.0 store.old store.new }
{
    match place {
        Place::Name(x) => set_name_text(store, x, t),
        Place::Reference(e) => set_reference_text(store, e, t),
    }
}

// What the text moves is moved as if it were set; then it is.
pub fn put_text(store: &mut [u8], place: Place, text: &[u8], count: u32, moved: &mut [u8])
    requires { Long store.old × (Changeable (place_of place) text.now store.old moved.old × Counted (place_of place) text.now count store.old) }
    ensures { Changes (place_of place) text.now store.old moved.old store.new moved.new }
{
    move_answers_of(store, place, text, count, moved);
    let t = add_text(store, text);
    set_text(store, place, t);
    spend(store, text.len());
}
