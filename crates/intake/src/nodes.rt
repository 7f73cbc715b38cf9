// The nodes of the sheet, read from the store. A number that is none of a node has kind 0, flag 0, no kids and the
// empty text, so that no function here needs a number in range.
ghost use Rattle.std.specs.Prelude.{◌≡◌, ◌≤◌, ◌<◌, length, ltb};
ghost use Rattle.spec.specs.Tree.{node_at};
ghost use Rattle.spec.specs.Keys.{kind, flag, text, pointer, kid};
ghost use Rattle.layout.specs.Layout.{node_limit, kid_limit, Long};
ghost use Rattle.layout.specs.Texts.{text_in};
ghost use Rattle.layout.specs.Nodes.{first_kid, kid_in, nodes_of};
ghost use Rattle.intake.specs.NodeReads.{node_word};
ghost use Rattle.module.specs.Ids.{node_of, pointer_of};
ghost use Rattle.module.specs.SyntaxKinds.{syntax_of_number};

use layout::at_most;
use layout::tables::{ABSENT, KID_LIMIT, KIDS, NODE_COUNT, NODE_LIMIT, NODE_ROW, NODES};
use module::{NodeId, Pointer, SyntaxKind, TextId};
use words::get32;

pub const KIND: usize = 4;

pub const FROM: usize = 8;

pub const TO: usize = 12;

pub const FLAG: usize = 16;

pub const TEXT: usize = 20;

fn has_node(store: &[u8], n: NodeId) -> bool
    requires { Long store.now }
    ensures { result ≡ ltb n.0 (length (nodes_of store.now)) }
{
    n.0 < at_most(get32(store, NODE_COUNT), NODE_LIMIT)
}

// A word of a node's row; 0 where there is no such node.
fn node_word(store: &[u8], n: NodeId, place: usize) -> u32
    requires { Long store.now × (place ≤ 20) }
    ensures { result ≡ node_word store.now n.0 place }
{
    if has_node(store, n) {
        return get32(store, NODES + NODE_ROW * (n.0 as usize) + place);
    }
    0
}

// A number and no `SyntaxKind`: a store's word may be any, and a pointer's kind is such a number too.
pub fn node_kind(store: &[u8], n: NodeId) -> u32
    requires { Long store.now }
    ensures { result ≡ kind (nodes_of store.now) n.0 }
{
    node_word(store, n, KIND)
}

// The kind of a node, where its number is one of a kind.
pub fn syntax_kind(store: &[u8], n: NodeId) -> Option<SyntaxKind>
    requires { Long store.now }
    ensures { result ≡ syntax_of_number (kind (nodes_of store.now) n.0) }
{
    SyntaxKind::of(node_kind(store, n))
}

pub fn node_flag(store: &[u8], n: NodeId) -> u32
    requires { Long store.now }
    ensures { result ≡ flag (nodes_of store.now) n.0 }
{
    node_word(store, n, FLAG)
}

pub fn node_pointer(store: &[u8], n: NodeId) -> Pointer
    requires { Long store.now }
    ensures { pointer_of result ≡ pointer (nodes_of store.now) n.0 }
{
    Pointer {
        kind: node_word(store, n, KIND),
        from: node_word(store, n, FROM),
        to: node_word(store, n, TO),
    }
}

pub fn node_text(store: &[u8], n: NodeId) -> TextId
    requires { Long store.now }
    ensures { text_in store.now result.0 ≡ text (nodes_of store.now) n.0 }
{
    if has_node(store, n) {
        return TextId(node_word(store, n, TEXT));
    }
    TextId(ABSENT)
}

// Where the kids of the row i begin, which is where those of the row before it end.
fn first_kid(store: &[u8], i: u32) -> u32
    requires { Long store.now × (i ≤ node_limit) }
    ensures { result ≡ first_kid store.now i }
{
    at_most(get32(store, NODES + NODE_ROW * (i as usize)), KID_LIMIT)
}

pub fn kid_count(store: &[u8], n: NodeId) -> u32
    requires { Long store.now }
    ensures { result ≡ length (node_at (nodes_of store.now) n.0).kids }
{
    if !has_node(store, n) {
        return 0;
    }
    let first = first_kid(store, n.0);
    let end = first_kid(store, n.0 + 1);
    if end <= first {
        return 0;
    }
    end - first
}

// The kid at a place of the kids.
fn kid_at(store: &[u8], at: u32) -> Option<NodeId>
    requires { Long store.now × (at < kid_limit) }
    ensures { node_of result ≡ kid_in store.now at }
{
    let k = get32(store, KIDS + 4 * (at as usize));
    if k == ABSENT {
        return None;
    }
    Some(NodeId(k))
}

pub fn kid(store: &[u8], n: NodeId, i: u32) -> Option<NodeId>
    requires { Long store.now }
    ensures { node_of result ≡ kid (nodes_of store.now) i n.0 }
{
    if kid_count(store, n) <= i {
        return None;
    }
    kid_at(store, first_kid(store, n.0) + i)
}
