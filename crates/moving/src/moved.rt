// An answer held against the one that is kept.
ghost use Rattle.layout.specs.Layout.{Long};
ghost use Rattle.moving.specs.Moving.{OtherThan};

use answer::Answer;
use kept::kept_answer;
use module::ExprId;

// Both stand at one place, so that their Withs, which are those of the place, are the same: `==` is enough.
#[tactic(auto, unfolding(answer::specs::Answers::maybe_with))]
pub(crate) fn unless_kept(store: &[u8], e: ExprId, a: Answer) -> Option<Answer>
    requires { Long store.now }
    ensures { OtherThan e.0 a store.now result }
{
    match kept_answer(store, e) {
        Some(was) => { if was == a { None } else { Some(a) } }
        None => Some(a),
    }
}
