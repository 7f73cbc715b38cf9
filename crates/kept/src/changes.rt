// The change room: how much of it is spent.
ghost use Rattle.std.specs.Prelude.{◌≡◌};
ghost use Rattle.layout.specs.Layout.{Long};
ghost use Rattle.layout.specs.Keeps.{kept_in};
ghost use Rattle.kept.specs.TextChanges.{Spent};

use layout::tables::SPENT_PLACE;
use words::{get32, put32};

#[tactic(auto, using(crate::proofs::ChangeLaws::spent_is))]
pub fn spent(store: &[u8]) -> u32
    requires { Long store.now }
    ensures { result ≡ (kept_in store.now).spent }
{
    get32(store, SPENT_PLACE)
}

#[tactic(auto, using(crate::proofs::ChangeLaws::spent_now))]
pub fn set_spent(store: &mut [u8], n: u32)
    requires { Long store.old }
    ensures { Spent n store.old store.new }
{
    put32(store, SPENT_PLACE, n);
}
