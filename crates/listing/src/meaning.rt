// The name that an expression is answered with.
ghost use Rattle.std.specs.Prelude.{◌≡◌};
ghost use Rattle.spec.specs.Kept.{kept_answer};
ghost use Rattle.module.specs.Ids.{name_of};
ghost use Rattle.layout.specs.Layout.{Long};
ghost use Rattle.layout.specs.Keeps.{kept_in};
ghost use Rattle.answer.specs.Answers.{meant};

use answer::name_of_answer;
use kept::kept_answer;
use module::{ExprId, NameId};

// The name that an expression means: none where it is no Reference, or means no name.
#[tactic(auto, using(answer::proofs::MeantLaws::meant_some, answer::proofs::MeantLaws::meant_none), unfolding(module::specs::Ids::name_of))]
pub fn name_meant(store: &[u8], e: ExprId) -> Option<NameId>
    requires { Long store.now }
    ensures { name_of result ≡ meant (kept_answer (kept_in store.now) e.0) }
{
    kept_answer(store, e).and_then(|a| name_of_answer(a))
}
