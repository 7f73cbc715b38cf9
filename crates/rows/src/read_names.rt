// Names are read; one out of range is as in the definitions, the empty text of a plain set at 0.
ghost use Rattle.std.specs.Prelude.{◌≡◌};
ghost use Rattle.spec.specs.Scopes.{name_at};
ghost use Rattle.module.specs.Ids.{pointer_of};
ghost use Rattle.module.specs.Kinds.{kind_of};
ghost use Rattle.layout.specs.Layout.{Long};
ghost use Rattle.layout.specs.Texts.{text_in};
ghost use Rattle.layout.specs.States.{module_in};

use crate::read_counts::name_count;
use layout::get_pointer;
use layout::tables::{ABSENT, NAME_POINTERS, NAME_ROW, NAMES, POINTER_ROW};
use module::{NameId, NameKind, Pointer, TextId};
use words::get32;

#[tactic(auto, using(crate::proofs::ReadLaws::name_text_out, crate::proofs::ReadLaws::name_text_in))]
pub fn name_text(store: &[u8], x: NameId) -> TextId
    requires { Long store.now }
    ensures { text_in store.now result.0 ≡ (name_at (module_in store.now) x.0).text }
{
    let n = x.0;
    if name_count(store) <= n {
        return TextId(ABSENT);
    }
    TextId(get32(store, NAMES + NAME_ROW * n as usize))
}

#[tactic(auto, using(crate::proofs::ReadLaws::name_out, crate::proofs::ReadLaws::name_kind_in), unfolding(module::specs::Kinds::kind_of))]
pub fn name_kind_of(store: &[u8], x: NameId) -> NameKind
    requires { Long store.now }
    ensures { kind_of result ≡ (name_at (module_in store.now) x.0).kind }
{
    let n = x.0;
    if name_count(store) <= n {
        return NameKind::PlainAttrset;
    }
    NameKind::from(get32(store, NAMES + NAME_ROW * n as usize + 4))
}

#[tactic(auto, using(crate::proofs::ReadLaws::name_out, crate::proofs::ReadLaws::name_pointer_in), unfolding(module::specs::Ids::pointer_of))]
pub fn name_pointer(store: &[u8], x: NameId) -> Pointer
    requires { Long store.now }
    ensures { pointer_of result ≡ (name_at (module_in store.now) x.0).pointer }
{
    let n = x.0;
    if name_count(store) <= n {
        return Pointer::default();
    }
    get_pointer(store, NAME_POINTERS + POINTER_ROW * n as usize)
}
