// A new text, held against the one that it is to replace and against what is left of the change room.
ghost use Rattle.std.specs.Prelude.{◌≡◌, ◌+◌, ◌≤◌, length, ltb};
ghost use Rattle.layout.specs.Layout.{room_limit, Long};
ghost use Rattle.layout.specs.Keeps.{kept_in};
ghost use Rattle.change.specs.Judged.{JudgesText};

use kept::spent;
use module::TextId;
use put_text::ROOM;
use refusals::Refusal;
use replies::Refused;
use texts::text_is;

// No new text is longer.
const NEW_TEXT_LIMIT: u32 = 255;

// Whether what is left of the change room is too little for a text.
fn lacks_room(store: &[u8], text: &[u8]) -> bool
    requires { Long store.now × (length text.now ≤ 255) }
    ensures { result ≡ ltb room_limit ((kept_in store.now).spent + length text.now) }
{
    ROOM < spent(store) as usize + text.len()
}

// Whether the new text is another than the one that is there: 8, then 27, which an equal text never meets.
#[tactic(auto, unfolding(spec::specs::Calls::give_text, spec::specs::Calls::in_room, spec::specs::Calls::check, crate::specs::Judged::after))]
pub fn judge_text(store: &[u8], held: TextId, text: &[u8]) -> Result<bool, Refused>
    requires { Long store.now }
    ensures { JudgesText store.now held.0 text.now result }
{
    if (NEW_TEXT_LIMIT as usize) < text.len() {
        return Err(Refused(Refusal::TextTooLong, NEW_TEXT_LIMIT));
    }
    if text_is(store, held, text) {
        return Ok(false);
    }
    if lacks_room(store, text) {
        return Err(Refused(Refusal::RoomSpent, 0));
    }
    Ok(true)
}
