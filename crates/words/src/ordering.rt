// The order of texts by their bytes: the first byte in which they differ decides, and a text that
// ends where the other goes on is the smaller.
ghost use Rattle.std.specs.Prelude.{◌≡◌};
ghost use Rattle.words.specs.Order.{order};

use std::cmp::Ordering;

// By the library's order, which is faster than a loop over the bytes (docs/PERFORMANCE.md). It stays a function so that
// its equation is in the definitions' words (`order`) at each of its calls.
pub fn compare(a: &[u8], b: &[u8]) -> Ordering
    ensures { result ≡ order a.now b.now }
{
    a.cmp(&b)
}
