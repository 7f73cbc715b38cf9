// Bytes written over others: from another slice, and from a place of the same slice.
ghost use Rattle.std.specs.Prelude.{◌≡◌, ◌+◌, ◌≤◌, length};
ghost use Rattle.words.specs.Runs.{run, splice};

// Writes the bytes of t over those of s from `at` on. A loop: the library's copy of a slice of any length calls
// `memmove`, which a host would have to bring (docs/STORE.md, "The calls").
pub fn copy_run(s: &mut [u8], at: usize, t: &[u8])
    requires { at + length t.now ≤ length s.old }
    ensures { s.new ≡ splice s.old at t.now }
{
    for i in 0..t.len() {
        s[at + i] = t[i];
    }
}

// The same for a few bytes: where their number is known, the library's copy is one store.
pub(crate) fn put_bytes(s: &mut [u8], at: usize, t: &[u8])
    requires { at + length t.now ≤ length s.old }
    ensures { s.new ≡ splice s.old at t.now }
{
    s[at..at + t.len()].copy_from_slice(t);
}

// Writes the n bytes from `from` on over those from `to` on. The two runs may overlap, so that they are places and a
// length, as for `copy_within`: a slice can't be lent as two that share bytes when one is written.
pub fn move_run(s: &mut [u8], from: usize, to: usize, n: usize)
    requires { (from + n ≤ length s.old) × (to + n ≤ length s.old) }
    ensures { s.new ≡ splice s.old to (run s.old from n) }
{
    s.copy_within(from..from + n, to);
}
