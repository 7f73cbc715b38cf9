// The header: how many rows each table of the module has in use, and the entry. Each count is one line and stands as a
// function of its own, since its equation is about another definition.
ghost use Rattle.std.specs.Prelude.{◌≡◌, ◌≤◌, length};
ghost use Rattle.layout.specs.Layout.{expr_limit, name_limit, diagnostic_limit, Long};
ghost use Rattle.layout.specs.States.{exprs_of, names_of, diagnostics_of, lost_of, module_in};

use layout::in_use;
use layout::tables::{
    DIAGNOSTIC_COUNT, DIAGNOSTIC_LIMIT, ENTRY_PLACE, EXPR_COUNT, EXPR_LIMIT, LOST_COUNT,
    NAME_COUNT, NAME_LIMIT,
};
use module::ExprId;
use words::get32;

#[tactic(auto, using(crate::proofs::ReadLaws::exprs_counted))]
pub fn expr_count(store: &[u8]) -> u32
    requires { Long store.now }
    ensures { (result ≡ length (exprs_of store.now)) × (result ≤ expr_limit) }
{
    in_use(store, EXPR_COUNT, EXPR_LIMIT)
}

#[tactic(auto, using(crate::proofs::ReadLaws::names_counted))]
pub fn name_count(store: &[u8]) -> u32
    requires { Long store.now }
    ensures { (result ≡ length (names_of store.now)) × (result ≤ name_limit) }
{
    in_use(store, NAME_COUNT, NAME_LIMIT)
}

#[tactic(auto, using(crate::proofs::ReadLaws::diagnostics_counted))]
pub fn diagnostic_count(store: &[u8]) -> u32
    requires { Long store.now }
    ensures { (result ≡ length (diagnostics_of store.now)) × (result ≤ diagnostic_limit) }
{
    in_use(store, DIAGNOSTIC_COUNT, DIAGNOSTIC_LIMIT)
}

#[tactic(auto, using(crate::proofs::ReadLaws::lost_counted))]
pub fn lost_count(store: &[u8]) -> u32
    requires { Long store.now }
    ensures { (result ≡ length (lost_of store.now)) × (result ≤ diagnostic_limit) }
{
    in_use(store, LOST_COUNT, DIAGNOSTIC_LIMIT)
}

// The expression of the whole text.
#[tactic(auto, unfolding(layout::specs::States::module_in, spec::specs::Lower::module_of, layout::specs::States::state_of))]
pub fn entry(store: &[u8]) -> ExprId
    requires { Long store.now }
    ensures { result.0 ≡ (module_in store.now).entry }
{
    ExprId(get32(store, ENTRY_PLACE))
}
