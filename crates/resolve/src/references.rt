// The kept references of a name, in the order in which they are kept, as numbers of four bytes in a buffer.
ghost use Rattle.std.specs.Prelude.{◌≡◌, ◌*◌, ◌≤◌, length};
ghost use Rattle.spec.specs.Kept.{kept_references};
ghost use Rattle.layout.specs.Layout.{Long};
ghost use Rattle.layout.specs.Rows.{set_all};
ghost use Rattle.layout.specs.Keeps.{kept_in};
ghost use Rattle.resolve.specs.Withs.{Lists};

use kept::{reference_at, reference_count};
use module::{ExprId, NameId};
use words::put32;

// Writes all n of them.
#[tactic(auto, using(crate::proofs::ReferenceLaws::copying_more, crate::proofs::ReferenceLaws::copying_lost, crate::proofs::ReferenceLaws::copying_done))]
fn write_references(store: &[u8], x: NameId, buffer: &mut [u8], n: u32)
    requires { Long store.now × ((n ≡ length (kept_references (kept_in store.now) x.0)) × (4 * n ≤ length buffer.old)) }
    ensures { buffer.new ≡ set_all buffer.old 0 (kept_references (kept_in store.now) x.0) }
{
    for i in 0..n {
        let Some(e) = reference_at(store, x, i) else {
            return;
        };
        put32(buffer, 4 * i as usize, e.0);
    }
}

// Tells how many there are, and lists them where the buffer has room for all. As `list_withs`: one function for both
// would take the writing as a closure, and what it promises would have to be asked of that; it would be no plainer.
pub fn list_kept_references(store: &[u8], x: NameId, buffer: &mut [u8]) -> u32
    requires { Long store.now }
    ensures { Lists (kept_references (kept_in store.now) x.0) buffer.old result buffer.new }
{
    let count = reference_count(store, x);
    if buffer.len() < 4 * count as usize {
        return count;
    }
    write_references(store, x, buffer, count);
    count
}
