// Which kinds of node a place takes.
ghost use Rattle.std.specs.Prelude.{◌≡◌};
ghost use Rattle.spec.specs.Kinds as Kinds;
ghost use Rattle.module.specs.SyntaxKinds.{number_of_syntax};
ghost use Rattle.tree.specs.Slots.{slot_of};

use module::SyntaxKind;

// What a place is for.
#[derive(Clone, Copy, PartialEq, Eq)]
pub enum Slot {
    Expression,
    Path,
    Attribute,
    Entry,
    Part,
    Parameter,
    From,
    Ident,
    Bind,
    PatternEntry,
}

impl Slot {
    // Whether the slot takes a node of this kind.
    pub fn takes(self, kind: SyntaxKind) -> bool
        ensures { result ≡ Kinds.takes (slot_of self) (number_of_syntax kind) }
    {
        takes(self, kind.number())
    }
}

// The same by the number of a kind, which decides since it is the child that is met: no slot takes a number that is no
// kind. It promises something for every number, and to take a `SyntaxKind` would ask more of callers.
#[tactic(auto, unfolding(crate::specs::Slots::slot_of))]
pub fn takes(slot: Slot, kind: u32) -> bool
    ensures { result ≡ Kinds.takes (slot_of slot) kind }
{
    match kind {
        6 => matches!(slot, Slot::Expression | Slot::Attribute),
        18 => matches!(slot, Slot::Expression | Slot::Attribute | Slot::Ident),
        1..=22 => slot == Slot::Expression,
        23 => slot == Slot::Path,
        24 => slot == Slot::Attribute,
        25..=26 => slot == Slot::Entry,
        27 => slot == Slot::From,
        28..=29 => slot == Slot::Parameter,
        30 => slot == Slot::Bind,
        31 => slot == Slot::PatternEntry,
        32..=33 => slot == Slot::Part,
        _ => false,
    }
}
