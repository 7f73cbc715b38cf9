// An answer as the word that stands for it in a store.
ghost use Rattle.std.specs.Prelude.{◌≡◌};
ghost use Rattle.answer.specs.Words.{answer_of_word, answer_word};

use crate::answer::Answer;
use layout::tables::{ABSENT, NAME_LIMIT};
use module::NameId;

// So many names are built in.
const BUILTINS: u32 = 22;

// The words of the built-in names begin here, and behind them those of the module's own names.
const FIRST_BUILTIN: u32 = 2;

const FIRST_NAME: u32 = FIRST_BUILTIN + BUILTINS;

// The answer that a word stands for. Any number may stand in a store, so every number is turned into an answer, here
// alone.
impl From<u32> for Answer {
    ghost from_gives = { λ n a. a ≡ answer_of_word n };

    #[tactic(auto, unfolding(crate::specs::Words::answer_of_word))]
    fn from(n: u32) -> Answer {
        match n {
            0 => Answer::Unresolved,
            1 => Answer::Withs,
            FIRST_BUILTIN..FIRST_NAME => Answer::Builtin(n - FIRST_BUILTIN),
            _ => Answer::Definition(NameId(n - FIRST_NAME)),
        }
    }
}

// The word of an answer, and the mark for one that no row can have. No `From`: an answer has two more numbers, for a
// host (told.rt), and the name says which one this is.
#[tactic(auto, unfolding(crate::specs::Words::answer_word))]
pub fn answer_word(a: Answer) -> u32
    ensures { result ≡ answer_word a }
{
    match a {
        Answer::Unresolved => 0,
        Answer::Definition(x) => {
            if x.0 < NAME_LIMIT {
                FIRST_NAME + x.0
            } else {
                ABSENT
            }
        }
        Answer::Builtin(i) => {
            if i < BUILTINS {
                FIRST_BUILTIN + i
            } else {
                ABSENT
            }
        }
        Answer::Withs => 1,
    }
}
