// Names and diagnostics are appended, and a name gets another text.
ghost use Rattle.std.specs.Prelude.{◌≡◌, true, ◌<◌};
ghost use Rattle.module.specs.Ids.{pointer_of};
ghost use Rattle.module.specs.Kinds.{kind_of};
ghost use Rattle.layout.specs.Layout.{diagnostic_limit, Long};
ghost use Rattle.layout.specs.Texts.{text_in};
ghost use Rattle.texts.specs.Fits.{text_fits};
ghost use Rattle.store.specs.TextChanges.{Renamed};
ghost use Rattle.store.specs.Work.{Did, put_name, put_duplicate, name_with, PutDiagnostic, PutLost};

use layout::tables::{
    DIAGNOSTIC_COUNT, DIAGNOSTIC_LIMIT, DIAGNOSTIC_ROW, DIAGNOSTICS, LOST, LOST_COUNT, NAME_COUNT,
    NAME_LIMIT, NAME_POINTERS, NAME_ROW, NAMES, POINTER_ROW,
};
use layout::{counter, put_pointer, put_words};
use module::{Counter, NameId, NameKind, Pointer, TextId};
use rows::name_count;
use texts::held_text;
use words::put32;

// A name with a text that lies within the bytes in use.
#[tactic(auto, using(crate::proofs::NameLaws::name_full, module::proofs::CounterLaws::room_left, module::proofs::CounterLaws::room_gone))]
fn append_name(store: &mut [u8], text: u32, kind: NameKind, p: Pointer) -> NameId
    requires { Long store.old × (text_fits store.old text ≡ true) }
    ensures { Did (put_name (name_with (text_in store.old text) (kind_of kind) (pointer_of p))) store.old result.0 store.new }
{
    let count = counter(store, NAME_COUNT);
    if count.has_room(NAME_LIMIT) {
        let n = count.used as usize;
        let number = kind.number();
        let next = count.next();
        put_words(store, NAMES + NAME_ROW * n, [text, number]);
        put_pointer(store, NAME_POINTERS + POINTER_ROW * n, p);
        put32(store, NAME_COUNT, next.used);
        return NameId(count.used);
    }
    NameId(NAME_LIMIT)
}

// alloc_name
#[tactic(auto, using(crate::proofs::NameLaws::name_held))]
pub fn alloc_name(store: &mut [u8], text: TextId, kind: NameKind, p: Pointer) -> NameId
    requires { Long store.old }
    ensures { Did (put_name (name_with (text_in store.old text.0) (kind_of kind) (pointer_of p))) store.old result.0 store.new }
{
    let held = held_text(store, text.0);
    append_name(store, held, kind, p)
}

// The row of a diagnostic: its key and both pointers.
#[tactic(auto, using(crate::proofs::NameLaws::diagnostic_put))]
fn put_diagnostic(store: &mut [u8], count: Counter, key: u32, first: Pointer, second: Pointer)
    requires { Long store.old × (count.used < diagnostic_limit) }
    ensures { PutDiagnostic count.used key (pointer_of first) (pointer_of second) store.old store.new }
{
    let next = count.next();
    let at = DIAGNOSTICS + DIAGNOSTIC_ROW * count.used as usize;
    put32(store, at, key);
    put_pointer(store, at + 4, first);
    put_pointer(store, at + 16, second);
    put32(store, DIAGNOSTIC_COUNT, next.used);
}

// One pointer more in the lost list.
#[tactic(auto, using(crate::proofs::NameLaws::lost_put))]
fn put_lost(store: &mut [u8], count: Counter, p: Pointer)
    requires { Long store.old × (count.used < diagnostic_limit) }
    ensures { PutLost count.used (pointer_of p) store.old store.new }
{
    let next = count.next();
    put_pointer(store, LOST + POINTER_ROW * count.used as usize, p);
    put32(store, LOST_COUNT, next.used);
}

// LowerDiagnostic::DuplicateKey, and its first pointer in the lost list.
#[tactic(auto, using(crate::proofs::NameLaws::duplicate_full, module::proofs::CounterLaws::room_left, module::proofs::CounterLaws::room_gone))]
pub fn add_duplicate(store: &mut [u8], key: TextId, first: Pointer, second: Pointer)
    requires { Long store.old }
    ensures { Did (put_duplicate (text_in store.old key.0) (pointer_of first) (pointer_of second)) store.old tt store.new }
{
    let count = counter(store, DIAGNOSTIC_COUNT);
    let lost = counter(store, LOST_COUNT);
    if count.has_room(DIAGNOSTIC_LIMIT) {
        if lost.has_room(DIAGNOSTIC_LIMIT) {
            let held = held_text(store, key.0);
            put_diagnostic(store, count, held, first, second);
            put_lost(store, lost, first);
        }
    }
}

// The name x has another text.
#[tactic(auto, using(crate::proofs::TextChangeLaws::names_cap, crate::proofs::TextChangeLaws::no_name))]
pub fn set_name_text(store: &mut [u8], x: NameId, t: TextId)
    requires { Long store.old }
    ensures { Renamed x.0 t.0 store.old store.new }
{
    let n = x.0;
    if name_count(store) <= n {
        return;
    }
    put32(store, NAMES + NAME_ROW * n as usize, t.0);
}
