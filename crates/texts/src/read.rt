// Texts: lent, compared and read where they lie. A number that is none of a text, as the mark, is the empty text.
ghost use Rattle.std.specs.Prelude.{◌≡◌, ◌≤◌, length};
ghost use Rattle.words.specs.Equality.{equalb};
ghost use Rattle.words.specs.Order.{order};
ghost use Rattle.layout.specs.Layout.{text_limit, Long};
ghost use Rattle.layout.specs.Texts.{text_in};
ghost use Rattle.texts.specs.Reads.{Lies};

use crate::held::text_held;
use layout::tables::TEXTS;
use module::TextId;
use std::cmp::Ordering;
use std::ops::Range;
use words::{compare, equal, get32};

// Where a text lies. What does not lie within the bytes in use has no bytes. The test is the one of held.rt, so that
// there is one reading of what is in use.
pub fn text_range(store: &[u8], t: TextId) -> Range<usize>
    requires { Long store.now }
    ensures { Lies store.now t.0 result.start result.end }
{
    if !text_held(store, t.0) {
        return 0..0;
    }
    let place = TEXTS + t.0 as usize;
    let start = place + 4;
    start..start + get32(store, place) as usize
}

// Whoever compares one text with many borrows its bytes, and so finds their place once.
pub fn text_bytes<'a>(store: &'a [u8], t: TextId) -> &'a [u8]
    requires { Long store.now }
    ensures bytes { result.now ≡ text_in store.now t.0 }
    ensures short { length result.now ≤ text_limit }
{
    &store[text_range(store, t)]
}

pub fn texts_equal(store: &[u8], a: TextId, b: TextId) -> bool
    requires { Long store.now }
    ensures { result ≡ equalb (text_in store.now a.0) (text_in store.now b.0) }
{
    equal(text_bytes(store, a), text_bytes(store, b))
}

pub fn compare_texts(store: &[u8], a: TextId, b: TextId) -> Ordering
    requires { Long store.now }
    ensures { result ≡ order (text_in store.now a.0) (text_in store.now b.0) }
{
    compare(text_bytes(store, a), text_bytes(store, b))
}

pub fn text_is(store: &[u8], t: TextId, bytes: &[u8]) -> bool
    requires { Long store.now }
    ensures { result ≡ equalb (text_in store.now t.0) bytes.now }
{
    equal(text_bytes(store, t), bytes)
}
