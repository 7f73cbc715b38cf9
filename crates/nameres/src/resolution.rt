// compute_name_resolution: the answer of every Reference is worked out and kept, and from these the
// references of every name.
ghost use Rattle.layout.specs.Layout.{Long};
ghost use Rattle.nameres.specs.Resolution.{AnswersOne, AnswersAll, Resolved};

use answer::Answer;
use kept::set_answer;
use listing::list_references;
use module::{ExprId, TextId};
use resolve::resolve_name;
use rows::{expr_count, reference_text};

// The answer of one expression. What is no Reference has none, and its row says so.
fn answer_afresh(store: &mut [u8], e: ExprId)
    requires { Long store.old }
    ensures { AnswersOne e.0 store.old store.new }
{
    match reference_text(store, e) {
        Some(t) => {
            let a = resolve_name(store, e, t);
            set_answer(store, e, a);
        }
        None => {
            set_answer(store, e, Answer::Unresolved);
        }
    }
}

// The answers of all expressions.
fn answer_all(store: &mut [u8])
    requires { Long store.old }
    ensures { AnswersAll store.old store.new }
{
    for e in 0..expr_count(store) {
        answer_afresh(store, ExprId(e));
    }
}

pub fn compute_name_resolution(store: &mut [u8])
    requires { Long store.old }
    ensures { Resolved store.old store.new }
{
    answer_all(store);
    list_references(store);
}
