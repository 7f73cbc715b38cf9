// What a host is told of a call: the number that is returned, and the five words of the reply that it lent.
//
// It knows the outcomes of the definitions (Calls.antt) and where their words lie in a reply, and nothing of a store.
#![tactic(auto)]

ghost use Rattle.std.specs.Prelude.{◌≡◌, ◌≤◌, length};
ghost use Rattle.spec.specs.Calls.{reply_bytes, refusal};
ghost use Rattle.refusals.specs.Numbers.{number_of};
ghost use Rattle.replies.specs.Replies.{Told, ToldMoved, ToldList, ToldAnswer, in_bytes, in_count};

use answer::{Answer, answer_number, answer_value};
use layout::put_words;
use refusals::Refusal;

// Five words: a shorter reply is not written. No `&mut [u8; 20]`: a host may lend more, and each caller of the functions
// below would have to cut the first 20 bytes off.
pub const REPLY_BYTES: usize = 20;

// A refusal: its number, which is returned too, and its place. It promises something for every number; who has a refusal
// by its name tells that (`Refused::tell`).
#[tactic(auto, unfolding(crate::specs::Replies::returned, crate::specs::Replies::reply_words, crate::specs::Replies::reply_after))]
pub fn refuse(reply: &mut [u8], number: u32, place: u32) -> u32
    requires { reply_bytes ≤ length reply.old }
    ensures { Told (refusal number place) reply.old result reply.new }
{
    put_words(reply, 0, [number, place, 0, 0, 0]);
    number
}

// What a call is refused for, and the place.
#[derive(Clone, Copy, PartialEq, Eq)]
pub struct Refused(pub Refusal, pub u32);

impl Refused {
    // A refusal by its name is told by its number.
    pub fn tell(self, reply: &mut [u8]) -> u32
        requires { reply_bytes ≤ length reply.old }
        ensures { Told (refusal (number_of self.0) self.1) reply.old result reply.new }
    {
        refuse(reply, self.0.number(), self.1)
    }
}

// A number has to be below how many there are: 24.
pub fn below(number: u32, count: u32) -> Result<(), Refused>
    ensures { result ≡ in_count number count }
{
    if count <= number {
        return Err(Refused(Refusal::NoSuchNumber, number));
    }
    Ok(())
}

// A list of so many numbers has to fit the bytes that are lent for it: 26 or 34, whose place is the length of the list.
pub fn room_for(count: u32, bytes: usize, short: Refusal) -> Result<u32, Refused>
    ensures { result ≡ in_bytes count bytes short }
{
    if bytes < 4 * count as usize {
        return Err(Refused(short, count));
    }
    Ok(count)
}

// A call that is done, and the length of the list in the buffer: the References that a change moved (a load moves
// none), or those of a name.
#[tactic(auto, unfolding(crate::specs::Replies::returned, crate::specs::Replies::reply_words, crate::specs::Replies::reply_after))]
pub fn tell_count(reply: &mut [u8], count: u32) -> u32
    requires { reply_bytes ≤ length reply.old }
    ensures moved { ToldMoved count reply.old result reply.new }
    ensures list { ToldList count reply.old result reply.new }
{
    put_words(reply, 0, [0, 0, 0, 0, count]);
    0
}

// An answer, with how many Withs stand in the buffer.
#[tactic(auto, unfolding(crate::specs::Replies::returned, crate::specs::Replies::reply_words, crate::specs::Replies::reply_after))]
pub fn tell_answer(reply: &mut [u8], a: Answer, count: u32) -> u32
    requires { reply_bytes ≤ length reply.old }
    ensures { ToldAnswer a count reply.old result reply.new }
{
    let number = answer_number(a);
    let value = answer_value(a);
    put_words(reply, 0, [0, 0, number, value, count]);
    0
}
