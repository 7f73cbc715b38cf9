// The references of every name, linked in the work room: of each name where its list begins, and of each
// expression which comes after it. A number stands one too high there, so that 0 can end a list.
ghost use Rattle.std.specs.Prelude.{◌≤◌, ◌<◌};
ghost use Rattle.layout.specs.Layout.{expr_limit, name_limit, Long};
ghost use Rattle.listing.specs.Links.{LinksOne, LinksAll, Links};

use crate::meaning::name_meant;
use kept::clear_rows;
use layout::at_most;
use layout::tables::{EXPR_COUNT, EXPR_LIMIT, HEADS, NAME_COUNT, NAME_LIMIT, NEXTS};
use module::{ExprId, NameId};
use words::{get32, put32};

// The expression e is put before the list of the name that it means, if that is one of the first n.
fn link_one(store: &mut [u8], e: ExprId, n: u32)
    requires { Long store.old × (e.0 < expr_limit) × (n ≤ name_limit) }
    ensures { LinksOne n e.0 store.old store.new }
{
    let Some(x) = name_meant(store, e) else {
        return;
    };
    let name = x.0;
    let i = e.0;
    if n <= name {
        return;
    }
    let head = get32(store, HEADS + 4 * name as usize);
    put32(store, NEXTS + 4 * i as usize, head);
    put32(store, HEADS + 4 * name as usize, i + 1);
}

// All expressions, the last one first.
fn link_all(store: &mut [u8], n: u32)
    requires { Long store.old × (n ≤ name_limit) }
    ensures { LinksAll n store.old store.new }
{
    let count = at_most(get32(store, EXPR_COUNT), EXPR_LIMIT);
    for e in (0..count).rev() {
        link_one(store, ExprId(e), n);
    }
}

// The references of every name, ascending.
pub fn link_references(store: &mut [u8])
    requires { Long store.old }
    ensures { Links store.old store.new }
{
    let n = at_most(get32(store, NAME_COUNT), NAME_LIMIT);
    clear_rows(store, HEADS, 4, n);
    link_all(store, n);
}
