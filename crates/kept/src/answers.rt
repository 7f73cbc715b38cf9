// The kept answer of every Reference: a word that stands beside its scope.
//
// The Withs of an answer are not kept: they are those of the scopes around the Reference.
ghost use Rattle.std.specs.Prelude.{◌≡◌, ◌≤◌};
ghost use Rattle.spec.specs.Kept.{kept_answer};
ghost use Rattle.layout.specs.Layout.{Long};
ghost use Rattle.layout.specs.Keeps.{scopes_in, kept_in};
ghost use Rattle.answer.specs.Answers.{maybe_with};
ghost use Rattle.kept.specs.Answers.{withs_at, Answered};

use crate::limits::in_use;
use answer::{Answer, answer_word};
use layout::tables::{ABSENT, EXPR_COUNT, EXPR_LIMIT, EXPR_ROW, EXPRS, USE_ROW, USES};
use module::ExprId;
use words::{get32, put32};

const REFERENCE: u32 = 21;

// The answer that is kept for an expression: none for one that is no Reference.
#[tactic(auto, using(crate::proofs::AnswerLaws::kept_other, crate::proofs::AnswerLaws::kept_is))]
pub fn kept_answer(store: &[u8], e: ExprId) -> Option<Answer>
    requires { Long store.now }
    ensures { maybe_with result (withs_at (scopes_in store.now) e.0) ≡ kept_answer (kept_in store.now) e.0 }
{
    let i = e.0;
    if in_use(store, EXPR_COUNT, EXPR_LIMIT) <= i {
        return None;
    }
    if get32(store, EXPRS + EXPR_ROW * i as usize + 4) != REFERENCE {
        return None;
    }
    Some(Answer::from(get32(store, USES + USE_ROW * i as usize + 4)))
}

// Keeps an answer for the Reference e.
#[tactic(auto, using(crate::proofs::AnswerLaws::no_word, crate::proofs::AnswerLaws::no_expr))]
pub fn set_answer(store: &mut [u8], e: ExprId, a: Answer)
    requires { Long store.old }
    ensures { Answered e.0 a store.old store.new }
{
    let i = e.0;
    let n = answer_word(a);
    if n == ABSENT {
        return;
    }
    if in_use(store, EXPR_COUNT, EXPR_LIMIT) <= i {
        return;
    }
    put32(store, USES + USE_ROW * i as usize + 4, n);
}
