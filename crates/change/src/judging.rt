// What a change of a fit store comes to. Refusals are checked in the order of the definitions (Calls.antt), by reading
// alone: what 34 needs is counted as if the text were set.
ghost use Rattle.layout.specs.Layout.{Long};
ghost use Rattle.change.specs.Judged.{Held, Judges};
ghost use Rattle.change.specs.Targets.{target_of};

use crate::new_text::judge_text;
use crate::target::Target;
use module::{ExprId, NameId, TextId};
use moving::count_moved;
use refusals::Refusal;
use replies::{Refused, below, room_for};
use rows::{expr_count, name_count, name_text, reference_text};

// The text that stands there: 24 where there is no such number, 25 where it is no Reference.
fn held_text(store: &[u8], target: Target) -> Result<TextId, Refused>
    requires { Long store.now }
    ensures { Held (target_of target) store.now result }
{
    match target {
        Target::Name(number) => {
            below(number, name_count(store))?;
            Ok(name_text(store, NameId(number)))
        }
        Target::Reference(number) => {
            below(number, expr_count(store))?;
            reference_text(store, ExprId(number)).ok_or(Refused(Refusal::NotAReference, number))
        }
    }
}

// How many answers a new text moves; none where it is there already, which changes nothing.
pub fn judge(
    store: &[u8],
    target: Target,
    text: &[u8],
    bytes: usize,
) -> Result<Option<u32>, Refused>
    requires { Long store.now }
    ensures { Judges (target_of target) text.now bytes store.now result }
{
    let held = held_text(store, target)?;
    let other = judge_text(store, held, text)?;
    if !other {
        return Ok(None);
    }
    let place = target.place();
    let count = room_for(count_moved(store, place, text), bytes, Refusal::MovedShort)?;
    Ok(Some(count))
}
