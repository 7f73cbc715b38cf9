// Numbers of four bytes, little end first. Each function compiles to one load or one store.
ghost use Rattle.std.specs.Prelude.{◌≡◌, ◌+◌, ◌≤◌, length};
ghost use Rattle.words.specs.Words.{word, set_word};

use crate::copying::put_bytes;

// The word whose first byte is at `at`.
pub fn get32(s: &[u8], at: usize) -> u32
    requires { at + 4 ≤ length s.now }
    ensures { result ≡ word s.now at }
{
    u32::from_le_bytes([s[at], s[at + 1], s[at + 2], s[at + 3]])
}

// Writes v over the word whose first byte is at `at`.
pub fn put32(s: &mut [u8], at: usize, v: u32)
    requires { at + 4 ≤ length s.old }
    ensures { s.new ≡ set_word s.old at v }
{
    put_bytes(s, at, &v.to_le_bytes());
}
