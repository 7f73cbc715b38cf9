// The functions of ast_utils.rs, under their names: which key an attribute is, and what it takes to say so. Also
// whether a node has an interpolation among its parts, which lower.rs asks of a path.
ghost use Rattle.std.specs.Prelude.{◌≡◌};
ghost use Rattle.spec.specs.Keys.{flatten_paren, get_str_literal, str_key, inside_dynamic, attr_kind};
ghost use Rattle.module.specs.Ids.{node_of};
ghost use Rattle.module.specs.Kinds.{kind_of};
ghost use Rattle.layout.specs.Layout.{Long};
ghost use Rattle.layout.specs.Nodes.{nodes_of};
ghost use Rattle.layout.specs.Texts.{maybe_text};
ghost use Rattle.keys.specs.AstUtils.{attr_kind_of, ident_name, set_kind, interpolation_at, Interpolated};

use crate::items::next_item;
use intake::{kid, kid_count, node_flag, node_text, syntax_kind};
use layout::tables::ABSENT;
use module::{NameKind, NodeId, SyntaxKind, TextId};

// Nodes are nested at most so deep.
pub const DEPTH: u32 = 256;

// The number of the empty text.
const EMPTY: TextId = TextId(ABSENT);

// A static key by its text, or another by the expression that makes it.
#[derive(Clone, Copy)]
pub enum AttrKind {
    Static(TextId),
    Dynamic(Option<NodeId>),
}

// What stands inside any Parens.
pub fn flatten_paren(store: &[u8], place: Option<NodeId>) -> Option<NodeId>
    requires { Long store.now }
    ensures { node_of result ≡ flatten_paren (nodes_of store.now) 256 (node_of place) }
{
    let mut cur = place;
    for _ in 0..DEPTH {
        let n = cur?;
        if syntax_kind(store, n) != Some(SyntaxKind::Paren) {
            return Some(n);
        }
        cur = kid(store, n, 0);
    }
    cur
}

// The name of an Ident, where it has one. A flag stays a number, as in the definitions: what it says goes by the kind
// of its node.
#[tactic(auto, unfolding(layout::specs::Texts::maybe_text))]
pub fn name_of_ident(store: &[u8], n: NodeId) -> Option<TextId>
    requires { Long store.now }
    ensures { maybe_text store.now result ≡ ident_name (nodes_of store.now) n.0 }
{
    (node_flag(store, n) == 1).then(|| node_text(store, n))
}

// The text of a Str without interpolation and with at most one part. With none it is the empty text.
pub fn get_str_literal(store: &[u8], n: NodeId) -> Option<TextId>
    requires { Long store.now }
    ensures { maybe_text store.now result ≡ get_str_literal (nodes_of store.now) n.0 }
{
    let Some((part, next)) = next_item(store, n, 0) else {
        return Some(EMPTY);
    };
    if next_item(store, n, next).is_some()
        || syntax_kind(store, part) != Some(SyntaxKind::LiteralPart)
    {
        return None;
    }
    Some(node_text(store, part))
}

#[tactic(auto, unfolding(module::specs::Kinds::kind_of))]
pub fn name_kind_of_set(store: &[u8], n: NodeId) -> NameKind
    requires { Long store.now }
    ensures { kind_of result ≡ set_kind (nodes_of store.now) n.0 }
{
    if node_flag(store, n) == 1 {
        NameKind::RecAttrset
    } else {
        NameKind::PlainAttrset
    }
}

// Whether there is an interpolation at a place of a node.
fn is_interpolation(store: &[u8], n: NodeId, i: u32) -> bool
    requires { Long store.now }
    ensures { result ≡ interpolation_at (nodes_of store.now) n.0 i }
{
    let Some(part) = kid(store, n, i) else {
        return false;
    };
    syntax_kind(store, part) == Some(SyntaxKind::Interpolation)
}

// Whether a part of a Str or a Path is an interpolation.
pub fn has_interpolation(store: &[u8], n: NodeId) -> bool
    requires { Long store.now }
    ensures { Interpolated (nodes_of store.now) n.0 result }
{
    (0..kid_count(store, n)).any(|i| is_interpolation(store, n, i))
}

// The key that a Str is.
#[tactic(auto, unfolding(crate::specs::AstUtils::attr_kind_of, module::specs::Ids::node_of, layout::specs::Texts::maybe_text, spec::specs::Keys::str_key))]
fn str_key(store: &[u8], n: NodeId) -> AttrKind
    requires { Long store.now }
    ensures { attr_kind_of store.now result ≡ str_key (nodes_of store.now) n.0 }
{
    match get_str_literal(store, n) {
        Some(t) => AttrKind::Static(t),
        None => AttrKind::Dynamic(Some(n)),
    }
}

// The key that a Dynamic is, by what stands inside its Parens: a Str, but no Ident, can be a static key there.
#[tactic(auto, unfolding(crate::specs::AstUtils::attr_kind_of, module::specs::Ids::node_of, spec::specs::Keys::inside_dynamic))]
fn inside_dynamic(store: &[u8], place: Option<NodeId>) -> AttrKind
    requires { Long store.now }
    ensures { attr_kind_of store.now result ≡ inside_dynamic (nodes_of store.now) (node_of place) }
{
    match place {
        Some(n) if syntax_kind(store, n) == Some(SyntaxKind::Str) => str_key(store, n),
        _ => AttrKind::Dynamic(place),
    }
}

// AttrKind::of. An Ident without a name has the empty text, which is a key too.
pub fn attr_kind(store: &[u8], a: NodeId) -> AttrKind
    requires { Long store.now }
    ensures { attr_kind_of store.now result ≡ attr_kind (nodes_of store.now) a.0 }
{
    // No `match` (tried): in its arm `_` the proof can't cite that the kind is none of those above.
    let kind = syntax_kind(store, a);
    if kind == Some(SyntaxKind::Ident) {
        AttrKind::Static(node_text(store, a))
    } else if kind == Some(SyntaxKind::Str) {
        str_key(store, a)
    } else {
        inside_dynamic(store, flatten_paren(store, kid(store, a, 0)))
    }
}
