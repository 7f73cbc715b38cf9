// A store with nothing in it, what a load begins with; and the entry, which lowering ends with.
ghost use Rattle.layout.specs.Layout.{Long};
ghost use Rattle.store.specs.Work.{SetEntry, Cleared};

use layout::put_words;
use layout::tables::{ENTRY_COUNT, ENTRY_PLACE, EXPR_COUNT, EXPRS, FIRSTS, SCOPE_COUNT, SCOPES};
use module::ExprId;
use words::put32;

// All counts are 0, and the lists of the first rows begin at 0. The nodes and the texts stay, though
// no text is in use.
#[tactic(auto, using(crate::proofs::ClearLaws::cleared))]
pub fn clear(store: &mut [u8])
    requires { Long store.old }
    ensures { Cleared store.old store.new }
{
    put_words(store, EXPR_COUNT, [0, 0, 0, 0, 0]);
    put_words(store, SCOPE_COUNT, [0, 0, 0, 0, 0]);
    put32(store, ENTRY_COUNT, 0);
    put32(store, EXPRS, 0);
    put32(store, SCOPES, 0);
    put32(store, FIRSTS, 0);
}

// The expression of the whole text.
#[tactic(auto, using(crate::proofs::EntryLaws::entry_set))]
pub fn set_entry(store: &mut [u8], e: ExprId)
    requires { Long store.old }
    ensures { SetEntry e.0 store.old store.new }
{
    put32(store, ENTRY_PLACE, e.0);
}
