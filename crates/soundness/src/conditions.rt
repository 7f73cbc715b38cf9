// Why a store is not fit: a call is refused by these in this order.
ghost use Rattle.std.specs.Prelude.{◌≡◌};
ghost use Rattle.soundness.specs.Verdict.{refusal_of};

use refusals::Refusal;

#[derive(Clone, Copy, Debug, PartialEq, Eq)]
pub enum Unfit {
    Short,
    Unsound,
    Unloaded,
}

impl From<Unfit> for Refusal {
    ghost from_gives = { λ why refusal. refusal ≡ refusal_of why };

    #[tactic(auto, unfolding(crate::specs::Verdict::refusal_of))]
    fn from(why: Unfit) -> Refusal {
        match why {
            Unfit::Short => Refusal::StoreShort,
            Unfit::Unsound => Refusal::StoreUnsound,
            Unfit::Unloaded => Refusal::NothingLoaded,
        }
    }
}
