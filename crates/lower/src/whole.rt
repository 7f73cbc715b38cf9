// The module of the nodes in a store.
ghost use Rattle.layout.specs.Layout.{Long};
ghost use Rattle.lower.specs.Whole.{LowersAll};

use crate::ctx::expr;
use keys::DEPTH;
use module::NodeId;
use store::set_entry;

// lower: from the root, the node 0, in a store that has no work in it.
pub fn lower(store: &mut [u8])
    requires { Long store.old }
    ensures { LowersAll store.old store.new }
{
    let e = expr(store, DEPTH, NodeId(0));
    set_entry(store, e);
}
