// An answer as document 01 tells it (docs/RULES.md, "Answers"): a number from 0 to 3, and a name or an index.
ghost use Rattle.answer.specs.Told.{number_of, value_of, Tells};

use crate::answer::Answer;

// Not a `From` either: an answer has this number, its value and its word in a store (word.rt).
#[tactic(auto, unfolding(crate::specs::Told::number_of, crate::specs::Answers::answer_with))]
pub fn answer_number(a: Answer) -> u32
    ensures { Tells number_of a result }
{
    match a {
        Answer::Unresolved => 0,
        Answer::Definition(_) => 1,
        Answer::Builtin(_) => 2,
        Answer::Withs => 3,
    }
}

// The name or the index; 0 where there is neither.
#[tactic(auto, unfolding(crate::specs::Told::value_of, crate::specs::Answers::answer_with))]
pub fn answer_value(a: Answer) -> u32
    ensures { Tells value_of a result }
{
    match a {
        Answer::Unresolved => 0,
        Answer::Definition(x) => x.0,
        Answer::Builtin(i) => i,
        Answer::Withs => 0,
    }
}
