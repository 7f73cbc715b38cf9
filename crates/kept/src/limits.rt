// Counts that are at most their limits.
ghost use Rattle.std.specs.Prelude.{◌≡◌, ◌+◌, ◌-◌, ◌≤◌, length};
ghost use Rattle.words.specs.Words.{word};
ghost use Rattle.layout.specs.Rows.{cap};

use layout::at_most;
use words::get32;

// The count at `at`, which is at most its limit whatever stands there.
pub fn in_use(store: &[u8], at: usize, limit: u32) -> u32
    requires { at + 4 ≤ length store.now }
    ensures { (result ≡ cap (word store.now at) limit) × (result ≤ limit) }
{
    at_most(get32(store, at), limit)
}

// How many a list has that begins where the row at `at` says, and ends where the next row's begins.
pub fn listed(store: &[u8], at: usize, row: usize, limit: u32) -> u32
    requires { at + row + 4 ≤ length store.now }
    ensures { result ≡ cap (word store.now (at + row)) limit - cap (word store.now at) limit }
{
    let from = in_use(store, at, limit);
    let to = in_use(store, at + row, limit);
    to.saturating_sub(from)
}
