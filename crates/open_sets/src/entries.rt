// Entries of open sets are read, written and given another value or nested set.
ghost use Rattle.std.specs.Prelude.{◌≡◌, ◌≤◌, ◌<◌, length};
ghost use Rattle.spec.specs.Merge.{entry_at, with_value, with_nested};
ghost use Rattle.module.specs.Ids.{binding_of};
ghost use Rattle.layout.specs.Layout.{absent, entry_limit, Long};
ghost use Rattle.layout.specs.States.{entries_of, state_of};
ghost use Rattle.store.specs.Work.{Did};
ghost use Rattle.open_sets.specs.Entries.{entry_with, Storable, PutEntry, change};

use crate::entry::{Entry, SetId};
use crate::entry_rows::{EntryRow, ValueWords, entry_row};
use layout::tables::{ENTRIES, ENTRY_COUNT, ENTRY_LIMIT, ENTRY_ROW};
use layout::{at_most, put_words};
use module::{BindingValue, ExprId};
use words::{get32, put32};

// One line, as `set_count` is: what they equal is said by two definitions.
#[tactic(auto, using(crate::proofs::EntryLaws::entries_counted))]
pub fn entry_count(store: &[u8]) -> u32
    requires { Long store.now }
    ensures { (result ≡ length (entries_of store.now)) × (result ≤ entry_limit) }
{
    at_most(get32(store, ENTRY_COUNT), ENTRY_LIMIT)
}

// Out of range it is as in the definitions.
#[tactic(auto, using(crate::proofs::EntryLaws::entry_out, crate::proofs::EntryLaws::entry_read), unfolding(crate::specs::Entries::entry_with))]
pub fn entry_at(store: &[u8], i: u32) -> Entry
    requires { Long store.now }
    ensures { entry_with store.now result ≡ entry_at i (state_of store.now) }
{
    if entry_count(store) <= i {
        return Entry::Source(SetId(0), ExprId(0));
    }
    let at = ENTRIES + ENTRY_ROW * i as usize;
    Entry::from(EntryRow {
        tag: get32(store, at),
        set: get32(store, at + 4),
        a: get32(store, at + 8),
        b: get32(store, at + 12),
        nested: get32(store, at + 16),
        sort: get32(store, at + 20),
        value: get32(store, at + 24),
    })
}

// The row n is written; neither the count nor the run is.
pub fn put_entry(store: &mut [u8], n: u32, e: Entry)
    requires { Long store.old × ((n < entry_limit) × Storable e) }
    ensures { PutEntry n e store.old store.new }
{
    let row = entry_row(e);
    let at = ENTRIES + ENTRY_ROW * n as usize;
    put_words(store, at, [row.tag, row.set, row.a, row.b, row.nested]);
    put_words(store, at + 20, [row.sort, row.value]);
}

// Only a static entry has a value; in a row of another sort its words are free.
#[tactic(auto, using(crate::proofs::ChangeLaws::change_out))]
pub fn set_value(store: &mut [u8], i: u32, v: BindingValue)
    requires { Long store.old }
    ensures { Did (change i (with_value (binding_of v))) store.old tt store.new }
{
    if i < entry_count(store) {
        let words = ValueWords::from(v);
        let at = ENTRIES + ENTRY_ROW * i as usize;
        put_words(store, at + 20, [words.sort, words.value]);
    }
}

// The mark can't be the number of a set. That is asked, here and by `Storable`, and not said by the type: rows hold any
// word, so a SetId read from one does too. As for a value, the word is free where there is none.
#[tactic(auto, using(crate::proofs::ChangeLaws::change_out))]
pub fn set_nested(store: &mut [u8], i: u32, t: SetId)
    requires { Long store.old × (t.0 < absent) }
    ensures { Did (change i (with_nested t.0)) store.old tt store.new }
{
    if i < entry_count(store) {
        let at = ENTRIES + ENTRY_ROW * i as usize;
        put32(store, at + 16, t.0);
    }
}
