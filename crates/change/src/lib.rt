// Changing a store: a text set, of a Reference or of a name, with what follows from it for all that is kept; the host is
// told which answers are others then.
//
// A change is judged first, by reading alone. A refused one writes its reply and nothing else.
#![tactic(auto)]

ghost use Rattle.std.specs.Prelude.{◌≡◌, ◌≤◌, length};
ghost use Rattle.spec.specs.Calls.{fit, reply_bytes, change_reference, change_name};
ghost use Rattle.soundness.specs.Sound.{condition_of};
ghost use Rattle.requests.specs.Requests.{Changed};
ghost use Rattle.change.specs.Judged.{call_at};
ghost use Rattle.change.specs.Targets.{target_of};

mod judging;
mod new_text;
mod target;

use judging::judge;
use put_text::put_text;
use replies::tell_count;
use requests::begin;
use target::Target;

// In a fit store. An equal text changes and moves nothing.
fn set_text(
    store: &mut [u8],
    target: Target,
    text: &[u8],
    moved: &mut [u8],
    reply: &mut [u8],
) -> u32
    requires { (condition_of store.old ≡ fit) × (reply_bytes ≤ length reply.old) }
    ensures { Changed (call_at (target_of target) text.now (length moved.old) (length reply.old)) store.old moved.old reply.old result store.new moved.new reply.new }
{
    match judge(store, target, text, moved.len()) {
        Err(refused) => refused.tell(reply),
        Ok(judged) => match judged {
            None => tell_count(reply, 0),
            Some(count) => {
                let place = target.place();
                put_text(store, place, text, count, moved);
                tell_count(reply, count)
            }
        },
    }
}

// Sets the text of a target.
fn change(store: &mut [u8], target: Target, text: &[u8], moved: &mut [u8], reply: &mut [u8]) -> u32
    ensures { Changed (call_at (target_of target) text.now (length moved.old) (length reply.old)) store.old moved.old reply.old result store.new moved.new reply.new }
{
    match begin(store, reply) {
        Ok(()) => set_text(store, target, text, moved, reply),
        Err(why) => why.number(),
    }
}

// Sets the text of a Reference.
pub fn change_reference(
    store: &mut [u8],
    number: u32,
    text: &[u8],
    moved: &mut [u8],
    reply: &mut [u8],
) -> u32
    ensures { Changed (change_reference number text.now (length moved.old) (length reply.old)) store.old moved.old reply.old result store.new moved.new reply.new }
{
    change(store, Target::Reference(number), text, moved, reply)
}

// Sets the text of a name.
pub fn change_name(
    store: &mut [u8],
    number: u32,
    text: &[u8],
    moved: &mut [u8],
    reply: &mut [u8],
) -> u32
    ensures { Changed (change_name number text.now (length moved.old) (length reply.old)) store.old moved.old reply.old result store.new moved.new reply.new }
{
    change(store, Target::Name(number), text, moved, reply)
}
