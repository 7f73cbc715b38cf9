// An entry is added: its row after the others, and its number where it stands in the run.
ghost use Rattle.std.specs.Prelude.{◌≤◌, ◌<◌};
ghost use Rattle.layout.specs.Layout.{entry_limit, Long};
ghost use Rattle.open_sets.specs.Entries.{entry_with, Storable};
ghost use Rattle.open_sets.specs.Run.{Inserted, Entered};

use crate::entries::put_entry;
use crate::entry::Entry;
use crate::run::place;
use crate::standing::standing_of;
use layout::counter;
use layout::tables::{ENTRY_COUNT, ENTRY_LIMIT, RUN};
use module::Counter;
use words::{move_run, put32};

// The numbers from the place q on go one place up, and the next entry's number comes there.
fn insert_number(store: &mut [u8], q: u32, count: Counter)
    requires { Long store.old × ((q ≤ count.used) × (count.used < entry_limit)) }
    ensures { Inserted q count.used store.old store.new }
{
    let next = count.next();
    let at = RUN + 4 * q as usize;
    let after = (count.used - q) as usize;
    move_run(store, at, at + 4, 4 * after);
    put32(store, at, count.used);
    put32(store, ENTRY_COUNT, next.used);
}

// Of equal ones the earlier stands first, so it comes after those that stand where it does.
#[tactic(auto, using(module::proofs::CounterLaws::room_gone, crate::proofs::RunAdds::not_entered))]
pub fn add_entry(store: &mut [u8], e: Entry)
    requires { Long store.old × Storable e }
    ensures { Entered (entry_with store.old e) store.old store.new }
{
    let count = counter(store, ENTRY_COUNT);
    if count.has_room(ENTRY_LIMIT) {
        let q = place(store, standing_of(e), true);
        put_entry(store, count.used, e);
        insert_number(store, q, count);
    }
}
