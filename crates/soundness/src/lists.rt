// Lists of numbers, a word each: the names that scopes enter, and the references that are kept.
ghost use Rattle.std.specs.Prelude.{◌≡◌, ◌+◌, ◌*◌, ◌≤◌, length, ltb};
ghost use Rattle.words.specs.Words.{word};
ghost use Rattle.soundness.specs.Sound.{all_to};

use words::get32;

// Whether each of the n words from `at` on is below the bound.
pub fn all_below(store: &[u8], at: usize, n: u32, bound: u32) -> bool
    requires { at + 4 * n ≤ length store.now }
    ensures { result ≡ all_to (λ j. ltb (word store.now (at + 4 * j)) bound) n }
{
    (0..n).all(|j| get32(store, at + 4 * j as usize) < bound)
}
