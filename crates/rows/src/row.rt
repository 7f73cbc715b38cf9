// The words of a row, as they are read and written.
ghost use Rattle.std.specs.Prelude.{◌≡◌, ◌+◌, ◌≤◌, length};
ghost use Rattle.words.specs.Words.{word};

use words::get32;

// The words of an expression's row after its first item.
#[derive(Clone, Copy)]
pub struct Row {
    pub sort: u32,
    pub a: u32,
    pub b: u32,
    pub c: u32,
}

// The words of an item's row.
#[derive(Clone, Copy)]
pub struct ItemRow {
    pub tag: u32,
    pub a: u32,
    pub b: u32,
}

impl Row {
    // Of the row that begins at `at`, with the word of its first item.
    pub fn at(store: &[u8], at: usize) -> Self
        requires { at + 20 ≤ length store.now }
        ensures { (result.sort ≡ word store.now (at + 4)) × (result.a ≡ word store.now (at + 8)) × (result.b ≡ word store.now (at + 12)) × (result.c ≡ word store.now (at + 16)) }
    {
        Row {
            sort: get32(store, at + 4),
            a: get32(store, at + 8),
            b: get32(store, at + 12),
            c: get32(store, at + 16),
        }
    }
}

impl ItemRow {
    pub fn at(store: &[u8], at: usize) -> Self
        requires { at + 12 ≤ length store.now }
        ensures { (result.tag ≡ word store.now at) × (result.a ≡ word store.now (at + 4)) × (result.b ≡ word store.now (at + 8)) }
    {
        ItemRow {
            tag: get32(store, at),
            a: get32(store, at + 4),
            b: get32(store, at + 8),
        }
    }
}
