// Asking a store: the answer that is kept for a Reference, and the references that are kept for a name. A list goes
// into the buffer that the host lent, if that has room for all of it.
//
// Refusals are checked in the order of the definitions (Calls.antt), and a refused call writes its reply alone.
#![tactic(auto)]

ghost use Rattle.std.specs.Prelude.{◌≡◌, ◌≤◌, length};
ghost use Rattle.spec.specs.Calls.{fit, reply_bytes, ask_reference, ask_name, with_list};
ghost use Rattle.layout.specs.Layout.{Long};
ghost use Rattle.layout.specs.Keeps.{scopes_in};
ghost use Rattle.soundness.specs.Sound.{condition_of};
ghost use Rattle.answer.specs.Answers.{answer_with};
ghost use Rattle.kept.specs.Answers.{withs_at};
ghost use Rattle.resolve.specs.Withs.{Lists};
ghost use Rattle.requests.specs.Requests.{Asked};
ghost use Rattle.ask.specs.Finds.{FindsAnswer, FindsReferences};

use answer::Answer;
use kept::kept_answer;
use module::{ExprId, NameId};
use refusals::Refusal;
use replies::{Refused, below, room_for, tell_answer, tell_count};
use requests::begin;
use resolve::{list_kept_references, list_withs};
use rows::{expr_count, name_count};

// The list that belongs to an answer: how long it is, and the list itself where the buffer has room. Only Withs
// have one.
#[tactic(auto, unfolding(spec::specs::Calls::with_list, answer::specs::Answers::answer_with, layout::specs::Rows::set_all))]
fn list_answer(store: &[u8], e: ExprId, a: Answer, buffer: &mut [u8]) -> u32
    requires { Long store.now }
    ensures { Lists (with_list (answer_with a (withs_at (scopes_in store.now) e.0))) buffer.old result buffer.new }
{
    match a {
        Answer::Unresolved | Answer::Definition(_) | Answer::Builtin(_) => 0,
        Answer::Withs => list_withs(store, e, buffer),
    }
}

// The answer of a Reference, and how many Withs it has: 24, 25 and 26.
fn find_answer(store: &[u8], number: u32, buffer: &mut [u8]) -> Result<(Answer, u32), Refused>
    requires { Long store.now }
    ensures { FindsAnswer number store.now buffer.old result buffer.new }
{
    below(number, expr_count(store))?;
    let Some(a) = kept_answer(store, ExprId(number)) else {
        return Err(Refused(Refusal::NotAReference, number));
    };
    let bytes = buffer.len();
    let with_count = list_answer(store, ExprId(number), a, buffer);
    room_for(with_count, bytes, Refusal::BufferShort)?;
    Ok((a, with_count))
}

// Of a fit store.
fn tell_reference(store: &[u8], number: u32, buffer: &mut [u8], reply: &mut [u8]) -> u32
    requires { (condition_of store.now ≡ fit) × (reply_bytes ≤ length reply.old) }
    ensures { Asked (ask_reference number (length buffer.old) (length reply.old)) store.now buffer.old reply.old result buffer.new reply.new }
{
    match find_answer(store, number, buffer) {
        Ok((a, with_count)) => tell_answer(reply, a, with_count),
        Err(refused) => refused.tell(reply),
    }
}

// What the name of a Reference means.
pub fn ask_reference(store: &[u8], number: u32, buffer: &mut [u8], reply: &mut [u8]) -> u32
    ensures { Asked (ask_reference number (length buffer.old) (length reply.old)) store.now buffer.old reply.old result buffer.new reply.new }
{
    match begin(store, reply) {
        Ok(()) => tell_reference(store, number, buffer, reply),
        Err(why) => why.number(),
    }
}

// How many references a name has: 24 and 26. What is left of the pair of calls is each call's own: which numbers there
// are, which list is asked for, and which words are told.
fn find_references(store: &[u8], number: u32, buffer: &mut [u8]) -> Result<u32, Refused>
    requires { Long store.now }
    ensures { FindsReferences number store.now buffer.old result buffer.new }
{
    below(number, name_count(store))?;
    let bytes = buffer.len();
    let use_count = list_kept_references(store, NameId(number), buffer);
    room_for(use_count, bytes, Refusal::BufferShort)
}

// Of a fit store.
fn tell_name(store: &[u8], number: u32, buffer: &mut [u8], reply: &mut [u8]) -> u32
    requires { (condition_of store.now ≡ fit) × (reply_bytes ≤ length reply.old) }
    ensures { Asked (ask_name number (length buffer.old) (length reply.old)) store.now buffer.old reply.old result buffer.new reply.new }
{
    match find_references(store, number, buffer) {
        Ok(use_count) => tell_count(reply, use_count),
        Err(refused) => refused.tell(reply),
    }
}

// Which References mean a name.
pub fn ask_name(store: &[u8], number: u32, buffer: &mut [u8], reply: &mut [u8]) -> u32
    ensures { Asked (ask_name number (length buffer.old) (length reply.old)) store.now buffer.old reply.old result buffer.new reply.new }
{
    match begin(store, reply) {
        Ok(()) => tell_name(store, number, buffer, reply),
        Err(why) => why.number(),
    }
}
