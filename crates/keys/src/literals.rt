// The literal that a Float or an Integer is, by its text. A value that is too large for any literal no longer
// counts: it stays at 9,223,372,036,854,775,808, so that it never wraps, however long the text is.
ghost use Rattle.std.specs.Prelude.{◌≡◌, ◌+◌, ◌*◌};
ghost use Rattle.spec.specs.Sheet.{bits_from, value_from};
ghost use Rattle.layout.specs.Layout.{Long};
ghost use Rattle.layout.specs.Nodes.{nodes_of};
ghost use Rattle.layout.specs.Texts.{text_in};
ghost use Rattle.keys.specs.Literals.{capped, float_held, integer_held, literal_held, LiteralRead};

use intake::{node_flag, node_text};
use module::{
    INFINITY_BITS, LARGEST_INTEGER, Literal, NodeId, SyntaxKind, TextId, float_of, integer_of,
};
use texts::text_bytes;

const TOO_LARGE: u64 = 9223372036854775808;

// One digit more, in the base. What is too large stays so with every digit more. (The numbers of a sheet's lines have
// one base and another bound, crates/sheet/src/decimals.rt.)
fn with_digit(base: u64, value: u64, digit: u8) -> u64
    ensures { result ≡ capped (base * value + digit) }
{
    base.saturating_mul(value)
        .saturating_add(u64::from(digit))
        .min(TOO_LARGE)
}

// The number that a text says by decimal digits. A byte that is below the digits counts as 0.
fn value_in(store: &[u8], t: TextId) -> u64
    requires { Long store.now }
    ensures { result ≡ capped (value_from 0 (text_in store.now t.0)) }
{
    text_bytes(store, t).iter().fold(0, |value, c| with_digit(10, value, c.saturating_sub(b'0')))
}

// The number that a text says by its bytes, the highest first.
fn bits_in(store: &[u8], t: TextId) -> u64
    requires { Long store.now }
    ensures { result ≡ capped (bits_from 0 (text_in store.now t.0)) }
{
    text_bytes(store, t)
        .iter()
        .fold(0, |bits, c| with_digit(256, bits, *c))
}

// The literal that a Float is, where it has one, which flag 1 says. Bits above those of infinity are in no
// accepted sheet, and give none.
#[tactic(auto, unfolding(crate::specs::Literals::float_held, crate::specs::Literals::literal_given, crate::specs::Literals::ValidGiven, module::specs::Literals::literal_of, module::specs::Literals::Valid))]
fn float_literal(store: &[u8], n: NodeId) -> Option<Literal>
    requires { Long store.now }
    ensures { LiteralRead store.now (float_held (nodes_of store.now) n.0) result }
{
    if node_flag(store, n) != 1 {
        return None;
    }
    let bits = bits_in(store, node_text(store, n));
    if INFINITY_BITS < bits {
        return None;
    }
    Some(Literal::Float(float_of(bits)))
}

// The literal that an Integer is, where it is an i64. No `try_from`: `integer_of` says in the definitions' numbers
// which integer it gives.
#[tactic(auto, unfolding(crate::specs::Literals::integer_held, crate::specs::Literals::literal_given, crate::specs::Literals::ValidGiven, module::specs::Literals::literal_of, module::specs::Literals::Valid))]
fn integer_literal(store: &[u8], n: NodeId) -> Option<Literal>
    requires { Long store.now }
    ensures { LiteralRead store.now (integer_held (nodes_of store.now) n.0) result }
{
    let value = value_in(store, node_text(store, n));
    if LARGEST_INTEGER < value {
        return None;
    }
    Some(Literal::Integer(integer_of(value)))
}

// The literal that a node of the kind is: that of a Float or an Integer, and none for the other kinds.
#[tactic(auto, unfolding(crate::specs::Literals::literal_held, crate::specs::Literals::literal_given, crate::specs::Literals::ValidGiven))]
pub fn literal_of(store: &[u8], n: NodeId, kind: Option<SyntaxKind>) -> Option<Literal>
    requires { Long store.now }
    ensures { LiteralRead store.now (literal_held (nodes_of store.now) kind n.0) result }
{
    match kind? {
        SyntaxKind::Float => float_literal(store, n),
        SyntaxKind::Integer => integer_literal(store, n),
        _ => None,
    }
}
