// The items of a node, one by one: those of its kids that are there, from a place on.
ghost use Rattle.layout.specs.Layout.{Long};
ghost use Rattle.layout.specs.Nodes.{nodes_of};
ghost use Rattle.keys.specs.Items.{Next};

use intake::{kid, kid_count};
use module::NodeId;

// The first kid of n from place i on that is there.
pub fn next_item(store: &[u8], n: NodeId, i: u32) -> Option<(NodeId, u32)>
    requires { Long store.now }
    ensures { Next (nodes_of store.now) i n.0 result }
{
    // No `find_map`: the library has no law of what it finds. By `find` the kid that is found would be read twice.
    for at in i..kid_count(store, n) {
        if let Some(k) = kid(store, n, at) {
            return Some((k, at + 1));
        }
    }
    None
}
