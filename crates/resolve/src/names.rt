// What a name means: definitions come first, and so do the built-in names; a With is asked for what is left.
ghost use Rattle.std.specs.Prelude.{◌≡◌};
ghost use Rattle.spec.specs.Answer.{chain, withs_of, text_of_name, after_builtins, answer_in, answer_at, scope_of_expr, builtins, index_from};
ghost use Rattle.spec.specs.Calls.{set_name};
ghost use Rattle.layout.specs.Layout.{Long};
ghost use Rattle.layout.specs.Texts.{text_in};
ghost use Rattle.layout.specs.States.{module_in};
ghost use Rattle.layout.specs.Keeps.{scopes_in};
ghost use Rattle.answer.specs.Answers.{answer_with};
ghost use Rattle.kept.specs.Answers.{withs_at};

use crate::search::innermost;
use crate::withs::has_with;
use answer::Answer;
use builtins::lookup_global_builtin;
use kept::scope_of;
use layout::tables::ABSENT;
use module::{ExprId, NameId, ScopeId, TextId};
use texts::text_bytes;

// What no definition answers: a built-in name, or else the Withs around the scope.
#[tactic(auto, using(crate::proofs::NameLaws::builtin_there, crate::proofs::NameLaws::withs_there, crate::proofs::NameLaws::withs_lacking))]
fn builtin_or_withs(store: &[u8], s: ScopeId, sought: &[u8]) -> Answer
    requires { Long store.now }
    ensures { answer_with result (withs_of (scopes_in store.now).scopes (chain (scopes_in store.now).scopes s.0)) ≡ after_builtins (withs_of (scopes_in store.now).scopes (chain (scopes_in store.now).scopes s.0)) (index_from 0 sought.now builtins) }
{
    match lookup_global_builtin(sought) {
        Some(i) => Answer::Builtin(i),
        None if has_with(store, s) => Answer::Withs,
        None => Answer::Unresolved,
    }
}

#[tactic(auto, using(crate::proofs::NameLaws::defined_is, crate::proofs::NameLaws::undefined_is))]
fn resolve_in(store: &[u8], s: ScopeId, sought: &[u8], x: NameId, text: &[u8]) -> Answer
    requires { Long store.now }
    ensures { answer_with result (withs_of (scopes_in store.now).scopes (chain (scopes_in store.now).scopes s.0)) ≡ answer_in (text_of_name (set_name x.0 text.now (module_in store.now))) (scopes_in store.now).scopes sought.now (chain (scopes_in store.now).scopes s.0) }
{
    match innermost(store, s, sought, x, text) {
        Some((_, y)) => Answer::Definition(y),
        None => builtin_or_withs(store, s, sought),
    }
}

// What the sought text would mean where the expression e stands, if the name x had the bytes `text`; nothing where e
// has no scope.
#[tactic(auto, using(crate::proofs::IdLaws::a_scope, crate::proofs::IdLaws::no_scope, crate::proofs::NameLaws::in_scope, crate::proofs::NameLaws::in_none))]
pub fn resolve_as(store: &[u8], e: ExprId, sought: &[u8], x: NameId, text: &[u8]) -> Answer
    requires { Long store.now }
    ensures { answer_with result (withs_at (scopes_in store.now) e.0) ≡ answer_at (text_of_name (set_name x.0 text.now (module_in store.now))) (scopes_in store.now).scopes sought.now (scope_of_expr (scopes_in store.now) e.0) }
{
    match scope_of(store, e) {
        Some(s) => resolve_in(store, s, sought, x, text),
        None => Answer::Unresolved,
    }
}

// What the text t of the store would mean there, if the name x had the bytes `text`.
pub fn resolve_renamed(store: &[u8], e: ExprId, t: TextId, x: NameId, text: &[u8]) -> Answer
    requires { Long store.now }
    ensures { answer_with result (withs_at (scopes_in store.now) e.0) ≡ answer_at (text_of_name (set_name x.0 text.now (module_in store.now))) (scopes_in store.now).scopes (text_in store.now t.0) (scope_of_expr (scopes_in store.now) e.0) }
{
    resolve_as(store, e, text_bytes(store, t), x, text)
}

// What the text t means there. The mark is no name's number, so that every name is read as it stands.
#[tactic(auto, using(crate::proofs::SetNameLaws::unset_answer))]
pub fn resolve_name(store: &[u8], e: ExprId, t: TextId) -> Answer
    requires { Long store.now }
    ensures { answer_with result (withs_at (scopes_in store.now) e.0) ≡ answer_at (text_of_name (module_in store.now)) (scopes_in store.now).scopes (text_in store.now t.0) (scope_of_expr (scopes_in store.now) e.0) }
{
    resolve_renamed(store, e, t, NameId(ABSENT), b"")
}
