// How an entry lies in its row, and how it is read from one. Every row gives something, whatever it holds: tags and
// sorts are words of bytes that anybody may write, so they are numbers, and become enums here alone.
#![tactic(auto, unfolding(crate::specs::Entries::maybe_set_of, crate::specs::Entries::maybe_value_of, crate::specs::Entries::entry_with, crate::specs::Entries::HeldSet, crate::specs::Entries::Storable, layout::specs::Rows::marked, layout::specs::States::value_of, layout::specs::States::entry_of, module::specs::Ids::binding_of))]

ghost use Rattle.std.specs.Prelude.{Some, ◌≡◌};
ghost use Rattle.layout.specs.Rows.{marked};
ghost use Rattle.layout.specs.States.{value_of};
ghost use Rattle.open_sets.specs.Entries.{maybe_set_of, maybe_value_of, HeldSet, Storable, SaysEntry, ReadsEntry};

use crate::entry::{Entry, SetId};
use layout::tables::ABSENT;
use module::{BindingValue, ExprId, NameId, TextId};

// The words of an entry's row.
#[derive(Clone, Copy)]
pub struct EntryRow {
    pub tag: u32,
    pub set: u32,
    pub a: u32,
    pub b: u32,
    pub nested: u32,
    pub sort: u32,
    pub value: u32,
}

// The words of a value.
#[derive(Clone, Copy)]
pub struct ValueWords {
    pub sort: u32,
    pub value: u32,
}

fn set_of(n: u32) -> Option<SetId>
    ensures { maybe_set_of result ≡ marked n }
{
    if n == ABSENT {
        return None;
    }
    Some(SetId(n))
}

fn value_of(sort: u32, value: u32) -> Option<BindingValue>
    ensures { maybe_value_of result ≡ value_of sort value }
{
    let e = ExprId(value);
    match sort {
        0 => None,
        1 => Some(BindingValue::Expr(e)),
        2 => Some(BindingValue::Inherit(e)),
        _ => Some(BindingValue::InheritFrom(e)),
    }
}

impl From<EntryRow> for Entry {
    ghost from_gives = { λ row entry. ReadsEntry row entry };

    fn from(row: EntryRow) -> Entry {
        let set = SetId(row.set);
        match row.tag {
            0 => {
                let nested = set_of(row.nested);
                let value = value_of(row.sort, row.value);
                Entry::Static(set, TextId(row.a), NameId(row.b), nested, value)
            }
            1 => Entry::Source(set, ExprId(row.a)),
            _ => Entry::Dynamic(set, ExprId(row.a), ExprId(row.b)),
        }
    }
}

fn set_number(s: Option<SetId>) -> u32
    requires { HeldSet s }
    ensures { marked result ≡ maybe_set_of s }
{
    match s {
        Some(n) => n.0,
        None => ABSENT,
    }
}

impl From<BindingValue> for ValueWords {
    ghost from_gives = { λ v words. value_of words.sort words.value ≡ maybe_value_of (Some v) };

    fn from(v: BindingValue) -> ValueWords {
        match v {
            BindingValue::Expr(e) => ValueWords {
                sort: 1,
                value: e.0,
            },
            BindingValue::Inherit(e) => ValueWords {
                sort: 2,
                value: e.0,
            },
            BindingValue::InheritFrom(e) => ValueWords {
                sort: 3,
                value: e.0,
            },
        }
    }
}

impl From<Option<BindingValue>> for ValueWords {
    ghost from_gives = { λ v words. value_of words.sort words.value ≡ maybe_value_of v };

    fn from(v: Option<BindingValue>) -> ValueWords {
        match v {
            Some(b) => ValueWords::from(b),
            None => ValueWords { sort: 0, value: 0 },
        }
    }
}

// No `From`, which may ask nothing: the number of a nested set must not be the mark.
pub fn entry_row(e: Entry) -> EntryRow
    requires { Storable e }
    ensures { SaysEntry result e }
{
    match e {
        Entry::Static(s, key, x, nested, value) => {
            let n = set_number(nested);
            let words = ValueWords::from(value);
            EntryRow {
                tag: 0,
                set: s.0,
                a: key.0,
                b: x.0,
                nested: n,
                sort: words.sort,
                value: words.value,
            }
        }
        Entry::Source(s, set) => EntryRow {
            tag: 1,
            set: s.0,
            a: set.0,
            b: 0,
            nested: 0,
            sort: 0,
            value: 0,
        },
        Entry::Dynamic(s, key, value) => EntryRow {
            tag: 2,
            set: s.0,
            a: key.0,
            b: value.0,
            nested: 0,
            sort: 0,
            value: 0,
        },
    }
}
