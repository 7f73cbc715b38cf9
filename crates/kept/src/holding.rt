// The scope that holds a name. No table is kept for it: it is the lowest scope whose names have it.
ghost use Rattle.std.specs.Prelude.{◌≡◌, ◌<◌};
ghost use Rattle.spec.specs.Scopes.{holds, holder};
ghost use Rattle.spec.specs.Answer.{scope_at};
ghost use Rattle.module.specs.Ids.{scope_of};
ghost use Rattle.layout.specs.Layout.{scope_limit, Long};
ghost use Rattle.layout.specs.Keeps.{scopes_in};

use crate::limits::in_use;
use crate::scopes::entered_count;
use layout::tables::{ENTERED, NAME_LIMIT, SCOPE_COUNT, SCOPE_LIMIT, SCOPE_ROW, SCOPES};
use module::{NameId, ScopeId};
use words::get32;

// Whether the name x is entered in the scope s. The table is read from the first of its names on.
fn holds_name(store: &[u8], s: ScopeId, x: NameId) -> bool
    requires { Long store.now × (s.0 < scope_limit) }
    ensures { result ≡ holds x.0 (scope_at (scopes_in store.now).scopes s.0).kind }
{
    let from = in_use(store, SCOPES + SCOPE_ROW * s.0 as usize, NAME_LIMIT);
    (0..entered_count(store, s)).any(|i| x.0
        == get32(store, ENTERED + 4 * (from as usize + i as usize)))
}

// Every entered name is looked at once at most, where the scopes lie one after the other as in a sound store.
pub fn scope_holding(store: &[u8], x: NameId) -> Option<ScopeId>
    requires { Long store.now }
    ensures { scope_of result ≡ holder (scopes_in store.now) x.0 }
{
    (0..in_use(store, SCOPE_COUNT, SCOPE_LIMIT))
        .find(|i| holds_name(store, ScopeId(*i), x))
        .map(ScopeId)
}
