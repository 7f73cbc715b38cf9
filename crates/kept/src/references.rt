// The kept references of every name, one list after the other: a name's begin where those of the name
// before it end.
//
// They are written anew for all names at once, name by name: what a name refers to is added where its
// list begins, and then the list is ended.
ghost use Rattle.std.specs.Prelude.{◌≡◌, ◌≤◌, length};
ghost use Rattle.std.proofs.Math.ListN.{get_elem?};
ghost use Rattle.spec.specs.Kept.{kept_references};
ghost use Rattle.module.specs.Ids.{expr_of};
ghost use Rattle.layout.specs.Layout.{Long};
ghost use Rattle.layout.specs.Keeps.{kept_in};
ghost use Rattle.kept.specs.References.{Unlisted, Refers, Ended};

use crate::limits::{in_use, listed};
use layout::tables::{FIRSTS, NAME_COUNT, NAME_LIMIT, REFERENCE_LIMIT, REFERENCES};
use module::{ExprId, NameId};
use words::{get32, put32};

// How many references there is room for, as a place is.
const REFERENCE_ROOM: usize = REFERENCE_LIMIT as usize;

// ---- reading
// How many references a name has.
#[tactic(auto, using(crate::proofs::ReferenceLaws::none_listed, crate::proofs::ReferenceLaws::some_listed))]
pub fn reference_count(store: &[u8], x: NameId) -> u32
    requires { Long store.now }
    ensures { result ≡ length (kept_references (kept_in store.now) x.0) }
{
    let i = x.0;
    if in_use(store, NAME_COUNT, NAME_LIMIT) <= i {
        return 0;
    }
    listed(store, FIRSTS + 4 * i as usize, 4, REFERENCE_LIMIT)
}

// The i-th of them, from 0 on.
// As `entered_at` reads the names of a scope. One function for both would take five parameters in place of two lines.
#[tactic(auto, using(crate::proofs::ReferenceLaws::found, crate::proofs::ReferenceLaws::past_found), unfolding(module::specs::Ids::expr_of))]
pub fn reference_at(store: &[u8], x: NameId, i: u32) -> Option<ExprId>
    requires { Long store.now }
    ensures { expr_of result ≡ get_elem? (kept_references (kept_in store.now) x.0) i }
{
    if i < reference_count(store, x) {
        let from = in_use(store, FIRSTS + 4 * x.0 as usize, REFERENCE_LIMIT);
        Some(ExprId(get32(store, REFERENCES + 4 * (from as usize + i as usize))))
    } else {
        None
    }
}

// ---- writing
// No name has its list any more.
pub fn clear_references(store: &mut [u8])
    requires { Long store.old }
    ensures { Unlisted store.old store.new }
{
    put32(store, FIRSTS, 0);
}

// The i-th reference, from 0 on, of the name x, while the names before it have their lists.
// As `enter_name` writes a name. One function for both would take six parameters in place of a few lines.
pub fn add_reference(store: &mut [u8], x: NameId, i: u32, e: ExprId)
    requires { Long store.old }
    ensures { Refers x.0 i e.0 store.old store.new }
{
    let name = x.0;
    if NAME_LIMIT <= name {
        return;
    }
    let at = get32(store, FIRSTS + 4 * name as usize) as usize + i as usize;
    if REFERENCE_ROOM <= at {
        return;
    }
    put32(store, REFERENCES + 4 * at, e.0);
}

// The name x has the first n of the references that were added.
pub fn end_references(store: &mut [u8], x: NameId, n: u32)
    requires { Long store.old }
    ensures { Ended x.0 n store.old store.new }
{
    let name = x.0;
    if NAME_LIMIT <= name {
        return;
    }
    let first = get32(store, FIRSTS + 4 * name as usize);
    if REFERENCE_ROOM < first as usize + n as usize {
        return;
    }
    put32(store, FIRSTS + 4 * name as usize + 4, first + n);
}
