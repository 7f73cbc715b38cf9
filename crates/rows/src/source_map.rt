// The pointer-to-number side of the source map. No table is kept for it: numbers are given in the order
// of writing, so that the last writer of a pointer is the highest row that has it. The sides of expressions and of names
// are alike, but each equation is about a definition of its own, and a row's pointer may be absent for expressions alone.
ghost use Rattle.std.specs.Prelude.{◌≡◌, ◌<◌};
ghost use Rattle.spec.specs.Module.{same_pointer, points_to, expr_for_node, name_for_node};
ghost use Rattle.module.specs.Ids.{expr_of, name_of, pointer_of};
ghost use Rattle.layout.specs.Layout.{expr_limit, name_limit, Long};
ghost use Rattle.layout.specs.Exprs.{made_in};
ghost use Rattle.layout.specs.States.{name_in, module_in};

use crate::read_counts::{expr_count, name_count};
use crate::read_exprs::row_pointer;
use layout::get_pointer;
use layout::tables::{NAME_POINTERS, POINTER_ROW};
use module::{ExprId, NameId, Pointer};

// Whether the expression n has the pointer p.
#[tactic(auto, using(crate::proofs::SourceMapLaws::expr_unpointed, crate::proofs::SourceMapLaws::expr_pointed), unfolding(spec::specs::Module::same_pointer, module::specs::Ids::pointer_of))]
fn expr_points(store: &[u8], n: ExprId, p: Pointer) -> bool
    requires { Long store.now × (n.0 < expr_limit) }
    ensures { result ≡ points_to (pointer_of p) (made_in store.now n.0).pointer }
{
    match row_pointer(store, n.0) {
        None => false,
        Some(q) => p == q,
    }
}

// Whether the name n has the pointer p.
#[tactic(auto, unfolding(spec::specs::Module::same_pointer, module::specs::Ids::pointer_of, layout::specs::States::name_in))]
fn name_points(store: &[u8], n: NameId, p: Pointer) -> bool
    requires { Long store.now × (n.0 < name_limit) }
    ensures { result ≡ same_pointer (pointer_of p) (name_in store.now n.0).pointer }
{
    p == get_pointer(store, NAME_POINTERS + POINTER_ROW * n.0 as usize)
}

pub fn expr_for_node(store: &[u8], p: Pointer) -> Option<ExprId>
    requires { Long store.now }
    ensures { expr_of result ≡ expr_for_node (module_in store.now) (pointer_of p) }
{
    (0..expr_count(store))
        .rfind(|n| expr_points(store, ExprId(*n), p))
        .map(ExprId)
}

pub fn name_for_node(store: &[u8], p: Pointer) -> Option<NameId>
    requires { Long store.now }
    ensures { name_of result ≡ name_for_node (module_in store.now) (pointer_of p) }
{
    (0..name_count(store))
        .rfind(|n| name_points(store, NameId(*n), p))
        .map(NameId)
}
