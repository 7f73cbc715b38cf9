// An answer, and the name that it means.
ghost use Rattle.std.specs.Prelude.{◌≡◌};
ghost use Rattle.module.specs.Ids.{name_of};
ghost use Rattle.answer.specs.Answers.{meant_by};

use module::NameId;

// What a Reference means.
#[derive(Clone, Copy, PartialEq, Eq)]
pub enum Answer {
    Unresolved,
    Definition(NameId),
    Builtin(u32),
    Withs,
}

// The name of an answer: none where it is no definition.
#[tactic(auto, unfolding(crate::specs::Answers::meant_by, module::specs::Ids::name_of))]
pub fn name_of_answer(a: Answer) -> Option<NameId>
    ensures { name_of result ≡ meant_by a }
{
    match a {
        Answer::Unresolved => None,
        Answer::Definition(x) => Some(x),
        Answer::Builtin(_) => None,
        Answer::Withs => None,
    }
}
