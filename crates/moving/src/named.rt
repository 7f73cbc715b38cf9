// A name whose text is to change, and which References that may move.
ghost use Rattle.std.specs.Prelude.{◌≡◌, ◌||◌};
ghost use Rattle.spec.specs.Scopes.{expr_at};
ghost use Rattle.spec.specs.Answer.{reference_text};
ghost use Rattle.spec.specs.Calls.{at_name};
ghost use Rattle.spec.specs.Moved.{bears, may_move};
ghost use Rattle.layout.specs.Layout.{Long};
ghost use Rattle.layout.specs.Texts.{text_in};
ghost use Rattle.layout.specs.States.{module_in};
ghost use Rattle.layout.specs.Keeps.{scopes_in};
ghost use Rattle.moving.specs.Moving.{About};

use kept::{scope_holding, scope_of};
use module::{ExprId, NameId, ScopeId, TextId};
use resolve::within;
use rows::{name_text, reference_text};
use texts::{text_is, texts_equal};

// With the text that it has and the scope that holds it, which are looked for once.
#[derive(Clone, Copy)]
pub struct Named {
    pub name: NameId,
    pub text: TextId,
    pub scope: Option<ScopeId>,
}

pub(crate) fn find_name(store: &[u8], x: NameId) -> Named
    requires { Long store.now }
    ensures { About store.now result × (result.name ≡ x) }
{
    let text = name_text(store, x);
    let scope = scope_holding(store, x);
    Named {
        name: x,
        text,
        scope,
    }
}

// Whether an expression is a Reference that bears the old text or the new one.
#[tactic(auto, unfolding(spec::specs::Moved::bears, layout::specs::Texts::maybe_text))]
fn bears_either(store: &[u8], e: ExprId, old: TextId, new: &[u8]) -> bool
    requires { Long store.now }
    ensures { result ≡ (bears (text_in store.now old.0) (reference_text (expr_at (module_in store.now) e.0)) || bears new.now (reference_text (expr_at (module_in store.now) e.0))) }
{
    let Some(t) = reference_text(store, e) else {
        return false;
    };
    if texts_equal(store, old, t) {
        return true;
    }
    text_is(store, t, new)
}

// Few bear either text, so that the scopes around the others are not looked at.
#[tactic(auto, unfolding(spec::specs::Moved::may_move, spec::specs::Moved::bears))]
pub(crate) fn may_move(store: &[u8], e: ExprId, x: Named, new: &[u8]) -> bool
    requires { Long store.now × About store.now x }
    ensures { result ≡ may_move (module_in store.now) (scopes_in store.now) (at_name x.name.0) new.now e.0 }
{
    if !bears_either(store, e, x.text, new) {
        return false;
    }
    let around = x.scope;
    within(store, around, scope_of(store, e))
}
