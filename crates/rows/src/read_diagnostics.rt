// Diagnostics and the lost list are read; out of range they are the empty text and the pointer 0, 0, 0.
ghost use Rattle.std.specs.Prelude.{◌≡◌};
ghost use Rattle.module.specs.Ids.{pointer_of};
ghost use Rattle.layout.specs.Layout.{Long};
ghost use Rattle.layout.specs.Texts.{text_in};
ghost use Rattle.layout.specs.States.{module_in};
ghost use Rattle.rows.specs.Readers.{diagnostic_with, diagnostic_at, lost_pointer_at};

use crate::read_counts::{diagnostic_count, lost_count};
use layout::get_pointer;
use layout::tables::{ABSENT, DIAGNOSTIC_ROW, DIAGNOSTICS, LOST, POINTER_ROW};
use module::{Pointer, TextId};
use words::get32;

// A key that stands twice in a set: its text, where it stands first, and where again.
#[derive(Clone, Copy)]
pub struct Diagnostic {
    pub key: TextId,
    pub first: Pointer,
    pub second: Pointer,
}

#[tactic(auto, using(crate::proofs::ReadLaws::diagnostic_read, crate::proofs::ReadLaws::diagnostic_unread), unfolding(crate::specs::Readers::diagnostic_with, crate::specs::Readers::nowhere, module::specs::Ids::pointer_of))]
pub fn read_diagnostic(store: &[u8], i: u32) -> Diagnostic
    requires { Long store.now }
    ensures { diagnostic_with (text_in store.now) result ≡ diagnostic_at (module_in store.now) i }
{
    if diagnostic_count(store) <= i {
        return Diagnostic {
            key: TextId(ABSENT),
            first: Pointer::default(),
            second: Pointer::default(),
        };
    }
    let at = DIAGNOSTICS + DIAGNOSTIC_ROW * i as usize;
    Diagnostic {
        key: TextId(get32(store, at)),
        first: get_pointer(store, at + 4),
        second: get_pointer(store, at + 16),
    }
}

#[tactic(auto, using(crate::proofs::ReadLaws::lost_in, crate::proofs::ReadLaws::lost_out), unfolding(crate::specs::Readers::nowhere, module::specs::Ids::pointer_of))]
pub fn lost_pointer(store: &[u8], i: u32) -> Pointer
    requires { Long store.now }
    ensures { pointer_of result ≡ lost_pointer_at (module_in store.now) i }
{
    if lost_count(store) <= i {
        return Pointer::default();
    }
    get_pointer(store, LOST + POINTER_ROW * i as usize)
}
