// The linked lists, written one after the other as kept references.
ghost use Rattle.std.specs.Prelude.{◌≤◌};
ghost use Rattle.kept.specs.References.{Listed};
ghost use Rattle.layout.specs.Layout.{name_limit, Long};
ghost use Rattle.listing.specs.Links.{Linked};
ghost use Rattle.listing.specs.Lists.{Listable, ListsOne, ListsAll, Lists};

use crate::linking::link_references;
use kept::{add_reference, clear_references, end_references};
use layout::at_most;
use layout::tables::{HEADS, NAME_COUNT, NAME_LIMIT, NEXTS};
use module::{ExprId, NameId};
use words::get32;

// The list of the name x, after those of the names before it.
fn list_one(store: &mut [u8], x: NameId)
    requires { Long store.old × Listable x.0 store.old }
    ensures { ListsOne x.0 store.old store.new }
{
    let mut next = get32(store, HEADS + 4 * x.0 as usize);
    let mut i: u32 = 0;
    // No `for`: the body writes the store that the links are read from, and how many there were is asked after it.
    while next != 0 {
        let e = next - 1;
        add_reference(store, x, i, ExprId(e));
        next = get32(store, NEXTS + 4 * e as usize);
        i += 1;
    }
    end_references(store, x, i);
}

// The lists of the first n names.
fn list_all(store: &mut [u8], n: u32)
    requires { Long store.old × (n ≤ name_limit) × Linked n 0 store.old × Listed 0 store.old }
    ensures { ListsAll n store.old store.new }
{
    for x in 0..n {
        list_one(store, NameId(x));
    }
}

// The kept references of every name: the expressions that are answered with it, ascending. An answer that
// means a name past the last one is in nobody's list. There is always room, since an expression has one
// answer.
pub fn list_references(store: &mut [u8])
    requires { Long store.old }
    ensures { Lists store.old store.new }
{
    // Read by `link_references` too: to be given it, that would have to ask its caller for just this number.
    let n = at_most(get32(store, NAME_COUNT), NAME_LIMIT);
    link_references(store);
    clear_references(store);
    list_all(store, n);
}
