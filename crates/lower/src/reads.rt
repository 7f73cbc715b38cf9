// What lowering reads before it writes.
ghost use Rattle.std.specs.Prelude.{◌≡◌, eqb, length};
ghost use Rattle.layout.specs.Layout.{Long};
ghost use Rattle.layout.specs.Nodes.{nodes_of};
ghost use Rattle.layout.specs.States.{sets_of, entries_of};
ghost use Rattle.layout.specs.Texts.{text_in};
ghost use Rattle.std.proofs.Math.Option.{some};
ghost use Rattle.spec.specs.Keys.{flag, kid_of};
ghost use Rattle.module.specs.Ids.{node_of};
ghost use Rattle.lower.specs.Reads.{HasParam, pattern_of, FirstEntry, GoesInto};

use intake::{kid, node_flag, syntax_kind};
use keys::next_item;
use merge::nested_at;
use module::{NodeId, Pattern, SyntaxKind, TextId};
use open_sets::{SetId, entry_count, set_count};

// The parameter of a Lambda: the Ident that names it, the Pattern whose fields there are, and what the
// expression says of that.
#[derive(Clone, Copy)]
pub struct Param {
    pub ident: Option<NodeId>,
    pub owner: Option<NodeId>,
    pub pattern: Pattern,
}

// A kid of a place that may be absent itself.
#[tactic(auto, unfolding(module::specs::Ids::node_of, spec::specs::Keys::kid_of))]
fn kid_of(store: &[u8], place: Option<NodeId>) -> Option<NodeId>
    requires { Long store.now }
    ensures { node_of result ≡ kid_of (nodes_of store.now) 0 (node_of place) }
{
    kid(store, place?, 0)
}

// A flag stays a number, as in the definitions: what it says goes by the kind of its node.
#[tactic(auto, unfolding(crate::specs::Reads::pattern_of))]
fn pattern_kind(store: &[u8], n: NodeId) -> Pattern
    requires { Long store.now }
    ensures { pattern_of result ≡ some (eqb (flag (nodes_of store.now) n.0) 1) }
{
    if node_flag(store, n) == 1 {
        Pattern::Ellipsis
    } else {
        Pattern::Closed
    }
}

fn param_node(store: &[u8], n: NodeId) -> Param
    requires { Long store.now }
    ensures { HasParam (nodes_of store.now) (some n.0) result }
{
    let first = kid(store, n, 0);
    if syntax_kind(store, n) == Some(SyntaxKind::IdentParam) {
        return Param {
            ident: first,
            owner: None,
            pattern: Pattern::Absent,
        };
    }
    Param {
        ident: kid_of(store, first),
        owner: Some(n),
        pattern: pattern_kind(store, n),
    }
}

#[tactic(auto, unfolding(module::specs::Ids::node_of, crate::specs::Reads::ident_of, crate::specs::Reads::owner_of, crate::specs::Reads::ellipsis_of, crate::specs::Reads::pattern_of))]
pub fn param_of(store: &[u8], place: Option<NodeId>) -> Param
    requires { Long store.now }
    ensures { HasParam (nodes_of store.now) (node_of place) result }
{
    match place {
        Some(n) => param_node(store, n),
        None => Param {
            ident: None,
            owner: None,
            pattern: Pattern::Absent,
        },
    }
}

// What is left of an attribute path: its attributes from place `after` on. A path that is absent has none.
#[derive(Clone, Copy)]
pub struct Rest {
    pub path: Option<NodeId>,
    pub after: u32,
}

impl Rest {
    ghost use Rattle.layout.specs.Layout.{Long};
    ghost use Rattle.layout.specs.Nodes.{nodes_of};
    ghost use Rattle.lower.specs.Reads.{NextIn};

    // The first attribute, and what is then left.
    #[tactic(auto, unfolding(module::specs::Ids::node_of, crate::specs::Reads::NextIn, keys::specs::Items::Next, crate::specs::Reads::attrs_from))]
    pub fn next(self, store: &[u8]) -> Option<(NodeId, Rest)>
        requires { Long store.now }
        ensures { NextIn (nodes_of store.now) self result }
    {
        let n = self.path?;
        let (a, after) = next_item(store, n, self.after)?;
        Some((a, Rest { after, ..self }))
    }
}

// Where the entries begin: a LetIn has its body first.
pub fn first_entry(store: &[u8], n: NodeId) -> u32
    requires { Long store.now }
    ensures { FirstEntry (nodes_of store.now) n.0 result }
{
    if syntax_kind(store, n) == Some(SyntaxKind::LetIn) {
        1
    } else {
        0
    }
}

// A set as the value of a key merges into the nested set that the key has.
pub fn into_set(
    store: &[u8],
    s: SetId,
    key: TextId,
    value: Option<NodeId>,
) -> Option<(SetId, NodeId)>
    requires { Long store.now }
    ensures { GoesInto store.now s.0 (text_in store.now key.0) (node_of value) result }
{
    let v = value?;
    if syntax_kind(store, v) != Some(SyntaxKind::AttrSet) {
        return None;
    }
    let t = nested_at(store, s, key)?;
    Some((t, v))
}

// How many sets are open, and how many entries they have: what is opened afterwards is cut off down to these.
#[derive(Clone, Copy)]
pub struct Opened {
    pub sets: u32,
    pub entries: u32,
}

pub fn opened_now(store: &[u8]) -> Opened
    requires { Long store.now }
    ensures { (result.sets ≡ length (sets_of store.now)) × (result.entries ≡ length (entries_of store.now)) }
{
    Opened {
        sets: set_count(store),
        entries: entry_count(store),
    }
}
