// Sets are opened, read, and cut off together with their entries.
ghost use Rattle.std.specs.Prelude.{◌≡◌, ◌≤◌, length};
ghost use Rattle.spec.specs.Merge.{set_at};
ghost use Rattle.module.specs.Ids.{pointer_of};
ghost use Rattle.module.specs.Kinds.{kind_of};
ghost use Rattle.layout.specs.Layout.{set_limit, Long};
ghost use Rattle.layout.specs.States.{sets_of, state_of};
ghost use Rattle.store.specs.Work.{Did};
ghost use Rattle.open_sets.specs.Entries.{open_set, cut_to};

use crate::entries::entry_count;
use crate::entry::SetId;
use layout::tables::{SET_COUNT, SET_LIMIT, SET_ROW, SETS};
use layout::{at_most, counter, get_pointer, put_pointer, put_words};
use module::{NameKind, Pointer};
use words::{get32, put32};

// One line, as `entry_count` is: what they equal is said by two definitions.
#[tactic(auto, using(crate::proofs::SetLaws::sets_counted))]
pub fn set_count(store: &[u8]) -> u32
    requires { Long store.now }
    ensures { (result ≡ length (sets_of store.now)) × (result ≤ set_limit) }
{
    at_most(get32(store, SET_COUNT), SET_LIMIT)
}

// MergingSet::new
#[tactic(auto, using(module::proofs::CounterLaws::room_gone, crate::proofs::SetLaws::sets_full))]
pub fn open_set(store: &mut [u8], kind: NameKind, p: Pointer) -> SetId
    requires { Long store.old }
    ensures { Did (open_set (kind_of kind) (pointer_of p)) store.old result.0 store.new × (result.0 ≤ set_limit) }
{
    let count = counter(store, SET_COUNT);
    if count.has_room(SET_LIMIT) {
        let at = SETS + SET_ROW * count.used as usize;
        let number = kind.number();
        let next = count.next();
        put_pointer(store, at, p);
        put32(store, at + 12, number);
        put32(store, SET_COUNT, next.used);
        return SetId(count.used);
    }
    SetId(SET_LIMIT)
}

// A set out of range is as in the definitions, a plain one at 0.
#[tactic(auto, using(crate::proofs::SetLaws::set_pointer_in, crate::proofs::SetLaws::set_out), unfolding(module::specs::Ids::pointer_of))]
pub fn set_pointer(store: &[u8], s: SetId) -> Pointer
    requires { Long store.now }
    ensures { pointer_of result ≡ (set_at s.0 (state_of store.now)).pointer }
{
    let n = s.0;
    if set_count(store) <= n {
        return Pointer::default();
    }
    get_pointer(store, SETS + SET_ROW * n as usize)
}

#[tactic(auto, using(crate::proofs::SetLaws::set_kind_in, crate::proofs::SetLaws::set_out), unfolding(module::specs::Kinds::kind_of))]
pub fn set_name_kind(store: &[u8], s: SetId) -> NameKind
    requires { Long store.now }
    ensures { kind_of result ≡ (set_at s.0 (state_of store.now)).name_kind }
{
    let n = s.0;
    if set_count(store) <= n {
        return NameKind::PlainAttrset;
    }
    NameKind::from(get32(store, SETS + SET_ROW * n as usize + 12))
}

// At most so many sets and entries stay. The run has a place for each entry, and keeps as many.
pub fn cut(store: &mut [u8], sets: u32, entries: u32)
    requires { Long store.old }
    ensures { Did (cut_to sets entries) store.old tt store.new }
{
    let s = at_most(set_count(store), sets);
    let e = at_most(entry_count(store), entries);
    put_words(store, SET_COUNT, [s, e]);
}
