// docs/RULES.md, "The condition of a store": "22 store unsound: a count over its limit, a number outside the list that
// docs/STORE.md gives for it, a parent scope not numbered below its child, or a child expression not numbered below its
// parent." No row or item is gone over more than twice, so the cost is linear in the store's length for any bytes.
ghost use Rattle.std.specs.Prelude.{◌≡◌};
ghost use Rattle.layout.specs.Layout.{Long};
ghost use Rattle.soundness.specs.Sound.{sound, condition_of};
ghost use Rattle.soundness.specs.Verdict.{verdict};

use crate::conditions::Unfit;
use crate::counted::CountedStore;
use layout::tables::{EXPR_COUNT, STORE_BYTES};
use words::get32;

#[tactic(auto, unfolding(crate::specs::Sound::sound))]
pub fn sound(store: &[u8]) -> bool
    requires { Long store.now }
    ensures { result ≡ sound store.now }
{
    let Some(rows) = CountedStore::new(store) else {
        return false;
    };
    rows.entry_fits()
        && rows.exprs_fit()
        && rows.names_fit()
        && rows.diagnostics_fit()
        && rows.scopes_fit()
        && rows.kept_fits()
}

// 21 before 22 before 23.
#[tactic(auto, unfolding(crate::specs::Verdict::verdict, crate::specs::Sound::condition_of))]
pub fn condition(store: &[u8]) -> Result<(), Unfit>
    ensures { result ≡ verdict (condition_of store.now) }
{
    if store.len() < STORE_BYTES {
        return Err(Unfit::Short);
    }
    if !sound(store) {
        return Err(Unfit::Unsound);
    }
    if get32(store, EXPR_COUNT) == 0 {
        return Err(Unfit::Unloaded);
    }
    Ok(())
}
