// Words one after the other: written, and a pointer read back.
ghost use Rattle.std.specs.Prelude.{◌≡◌, [], ◌∷◌, ◌+◌, ◌*◌, ◌≤◌, length};
ghost use Rattle.words.specs.Words.{word};
ghost use Rattle.module.specs.Ids.{pointer_of};
ghost use Rattle.layout.specs.Rows.{cap, set_all};
ghost use Rattle.layout.specs.Exprs.{pointer_at};

use module::{Counter, Pointer};
use words::{get32, put32};

// How many rows of a table are in use, by the count that stands at `at`.
pub fn counter(store: &[u8], at: usize) -> Counter
    requires { at + 4 ≤ length store.now }
    ensures { result.used ≡ word store.now at }
{
    Counter {
        used: get32(store, at),
    }
}

// A number, which is at most the limit whatever stands there.
#[tactic(auto, unfolding(crate::specs::Rows::cap))]
pub fn at_most(n: u32, limit: u32) -> u32
    ensures { (result ≡ cap n limit) × (result ≤ limit) }
{
    n.min(limit)
}

// How many rows of a table are in use: the count at `at`, which is at most its limit whatever stands there.
pub fn in_use(store: &[u8], at: usize, limit: u32) -> u32
    requires { at + 4 ≤ length store.now }
    ensures { (result ≡ cap (word store.now at) limit) × (result ≤ limit) }
{
    at_most(get32(store, at), limit)
}

// The words are written one after the other, the first at `at`.
pub fn put_words<const N: usize>(store: &mut [u8], at: usize, words: [u32; N])
    requires { at + 4 * N ≤ length store.old }
    ensures { store.new ≡ set_all store.old at words.entry }
{
    for (i, word) in words.iter().enumerate() {
        put32(store, at + 4 * i, *word);
    }
}

pub fn put_pointer(store: &mut [u8], at: usize, p: Pointer)
    requires { at + 12 ≤ length store.old }
    ensures { store.new ≡ set_all store.old at (p.kind ∷ p.from ∷ p.to ∷ []) }
{
    put_words(store, at, [p.kind, p.from, p.to]);
}

pub fn get_pointer(store: &[u8], at: usize) -> Pointer
    requires { at + 12 ≤ length store.now }
    ensures { pointer_of result ≡ pointer_at store.now at }
{
    Pointer {
        kind: get32(store, at),
        from: get32(store, at + 4),
        to: get32(store, at + 8),
    }
}
