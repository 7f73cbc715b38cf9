// The counts of a store: each within its limit, and the entry expression among the expressions.
ghost use Rattle.std.specs.Prelude.{◌≡◌};
ghost use Rattle.layout.specs.Layout.{Long};
ghost use Rattle.soundness.specs.Sound.{counts_fit};
ghost use Rattle.soundness.specs.SoundCounts.{Taken};

use layout::tables::{
    DIAGNOSTIC_COUNT, DIAGNOSTIC_LIMIT, EXPR_COUNT, EXPR_LIMIT, LOADED_TEXT_LIMIT, LOST_COUNT,
    NAME_COUNT, NAME_LIMIT, ROOM_LIMIT, SCOPE_COUNT, SCOPE_LIMIT, SPENT_PLACE, TEXTS_PLACE,
};
use words::get32;

// What the rows' numbers are held against, read once: how many expressions, names,
// diagnostics and scopes there are, and how many bytes of texts are in use.
#[derive(Clone, Copy)]
pub struct Counts {
    pub exprs: u32,
    pub names: u32,
    pub diagnostics: u32,
    pub scopes: u32,
    pub texts: u32,
}

pub fn counts_of(store: &[u8]) -> Counts
    requires { Long store.now }
    ensures { Taken store.now result }
{
    Counts {
        exprs: get32(store, EXPR_COUNT),
        names: get32(store, NAME_COUNT),
        diagnostics: get32(store, DIAGNOSTIC_COUNT),
        scopes: get32(store, SCOPE_COUNT),
        texts: get32(store, TEXTS_PLACE),
    }
}

// The texts are held to less than their room, so that what the change room may still bring has a
// place.
#[tactic(auto, unfolding(crate::specs::Sound::counts_fit))]
pub fn counts_fit(store: &[u8], counts: Counts) -> bool
    requires { Long store.now × Taken store.now counts }
    ensures { result ≡ counts_fit store.now }
{
    let spent = get32(store, SPENT_PLACE);
    counts.exprs <= EXPR_LIMIT
        && counts.names <= NAME_LIMIT
        && counts.diagnostics <= DIAGNOSTIC_LIMIT
        && get32(store, LOST_COUNT) <= DIAGNOSTIC_LIMIT
        && counts.scopes <= SCOPE_LIMIT
        && spent <= ROOM_LIMIT
        && counts.texts as usize <= LOADED_TEXT_LIMIT + 5 * (spent as usize)
}
