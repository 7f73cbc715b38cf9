// The Withs around an expression, innermost first, as numbers of four bytes in a buffer.
ghost use Rattle.std.specs.Prelude.{◌≡◌, ◌*◌, ◌≤◌, length};
ghost use Rattle.spec.specs.Answer.{chain, withs_of};
ghost use Rattle.layout.specs.Layout.{Long};
ghost use Rattle.layout.specs.Rows.{set_all};
ghost use Rattle.layout.specs.Keeps.{scopes_in};
ghost use Rattle.kept.specs.Answers.{withs_at};
ghost use Rattle.resolve.specs.Withs.{Lists};

use crate::chain::ScopeChain;
use crate::withs::count_withs;
use kept::{scope_of, scope_with};
use module::{ExprId, ScopeId};
use words::put32;

// Writes all n of them.
#[tactic(auto, using(crate::proofs::ChainLaws::one_comes, crate::proofs::ChainLaws::none_comes, crate::proofs::IdLaws::an_expr, crate::proofs::IdLaws::no_expr, crate::proofs::WithListLaws::with_next, crate::proofs::WithListLaws::with_past, crate::proofs::WithListLaws::writing_room, crate::proofs::WithListLaws::writing_on, crate::proofs::WithListLaws::writing_done), unfolding(spec::specs::Answer::withs_of))]
fn write_withs(store: &[u8], s: ScopeId, buffer: &mut [u8], n: usize)
    requires { Long store.now × ((n ≡ length (withs_of (scopes_in store.now).scopes (chain (scopes_in store.now).scopes s.0))) × (4 * n ≤ length buffer.old)) }
    ensures { buffer.new ≡ set_all buffer.old 0 (withs_of (scopes_in store.now).scopes (chain (scopes_in store.now).scopes s.0)) }
{
    let mut written = 0;
    // Tried with `filter_map(..).enumerate()`: the adapters bring promises of their own, which the search does not
    // close.
    for i in ScopeChain::new(store, s) {
        if let Some(e) = scope_with(store, i) {
            put32(buffer, 4 * written, e.0);
            written += 1;
        }
    }
}

// Tells how many there are, and lists them where the buffer has room for all. It walks the chain twice, for one answer
// alone; that is little beside the check of the whole store that every call begins with.
pub fn list_withs(store: &[u8], e: ExprId, buffer: &mut [u8]) -> u32
    requires { Long store.now }
    ensures { Lists (withs_at (scopes_in store.now) e.0) buffer.old result buffer.new }
{
    let Some(s) = scope_of(store, e) else {
        return 0;
    };
    let count = count_withs(store, s);
    if 4 * count <= buffer.len() {
        write_withs(store, s, buffer, count);
    }
    count as u32
}
