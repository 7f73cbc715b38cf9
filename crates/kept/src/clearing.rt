// Rows cleared, of any table that a load does not bring in.
ghost use Rattle.std.specs.Prelude.{◌+◌, ◌*◌, ◌≤◌};
ghost use Rattle.layout.specs.Layout.{exprs_at, sheet_at, Long};
ghost use Rattle.kept.specs.Zeroes.{Zeroed};

use words::put32;

// The first word of each of the first n rows of a table is 0. No `fill`: a row may have more words, which stay.
pub fn clear_rows(store: &mut [u8], table: usize, row: usize, n: u32)
    requires { Long store.old × (exprs_at ≤ table) × (4 ≤ row) × (table + row * n ≤ sheet_at) }
    ensures { Zeroed table row n store.old store.new }
{
    for i in 0..n {
        put32(store, table + row * i as usize, 0);
    }
}
