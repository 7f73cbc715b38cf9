// The places of the kids of each kind.
ghost use Rattle.std.specs.Prelude.{◌≡◌, true, eqb, leb, if◌then◌else◌, None, Some};
ghost use Rattle.spec.specs.Kinds.{kind_of};
ghost use Rattle.spec.specs.Tree.{count_fits};
ghost use Rattle.module.specs.SyntaxKinds.{number_of_syntax};
ghost use Rattle.tree.specs.Places.{Fills, Skips, Opens};

use crate::slots::Slot;
use module::SyntaxKind;

// The places of a node's kids that are still to fill: counted ones, and what a list after them takes.
#[derive(Clone, Copy)]
pub struct Places {
    pub counted: &'static [Slot],
    pub listed: Option<Slot>,
}

// A path has at most 16 attributes.
#[tactic(auto, unfolding(module::specs::SyntaxKinds::number_of_syntax))]
fn short_enough(kind: SyntaxKind, kids: usize) -> bool
    ensures { result ≡ (if eqb (number_of_syntax kind) 23 then leb kids 16 else true) }
{
    match kind {
        SyntaxKind::Attrpath => kids <= 16,
        _ => true,
    }
}

impl Places {
    // Counted places alone.
    fn only(counted: &'static [Slot]) -> Places
        ensures { (result.counted.now ≡ counted.now) × (result.listed ≡ None) }
    {
        Places {
            counted,
            listed: None,
        }
    }

    // Counted places, and a list after them.
    fn then_each(counted: &'static [Slot], slot: Slot) -> Places
        ensures { (result.counted.now ≡ counted.now) × (result.listed ≡ Some slot) }
    {
        Places {
            counted,
            listed: Some(slot),
        }
    }

    // All places of a kind.
    #[tactic(auto, unfolding(spec::specs::Kinds::kind_of, spec::specs::Kinds::kinds, module::specs::SyntaxKinds::number_of_syntax, crate::specs::Slots::slot_of))]
    pub fn of(kind: SyntaxKind) -> Places
        ensures { Fills result (kind_of (number_of_syntax kind)) }
    {
        match kind {
            SyntaxKind::Apply | SyntaxKind::With | SyntaxKind::BinOp | SyntaxKind::Assert => {
                Places::only(&[Slot::Expression, Slot::Expression])
            }
            SyntaxKind::IfElse => Places::only(&[
                Slot::Expression,
                Slot::Expression,
                Slot::Expression,
            ]),
            SyntaxKind::Select => Places::only(&[Slot::Expression, Slot::Path, Slot::Expression]),
            SyntaxKind::HasAttr => Places::only(&[Slot::Expression, Slot::Path]),
            SyntaxKind::Str | SyntaxKind::Path => Places::then_each(&[], Slot::Part),
            SyntaxKind::Lambda => Places::only(&[Slot::Parameter, Slot::Expression]),
            SyntaxKind::LetIn => Places::then_each(&[Slot::Expression], Slot::Entry),
            SyntaxKind::List => Places::then_each(&[], Slot::Expression),
            SyntaxKind::Paren
            | SyntaxKind::UnaryOp
            | SyntaxKind::Root
            | SyntaxKind::Dynamic
            | SyntaxKind::InheritFrom
            | SyntaxKind::Interpolation => Places::only(&[Slot::Expression]),
            SyntaxKind::AttrSet => Places::then_each(&[], Slot::Entry),
            SyntaxKind::Attrpath => Places::then_each(&[], Slot::Attribute),
            SyntaxKind::AttrpathValue => Places::only(&[Slot::Path, Slot::Expression]),
            SyntaxKind::Inherit => Places::then_each(&[Slot::From], Slot::Attribute),
            SyntaxKind::IdentParam | SyntaxKind::PatBind => Places::only(&[Slot::Ident]),
            SyntaxKind::Pattern => Places::then_each(&[Slot::Bind], Slot::PatternEntry),
            SyntaxKind::PatEntry => Places::only(&[Slot::Ident, Slot::Expression]),
            SyntaxKind::Float
            | SyntaxKind::Integer
            | SyntaxKind::Uri
            | SyntaxKind::Ident
            | SyntaxKind::Error
            | SyntaxKind::LegacyLet
            | SyntaxKind::LiteralPart => Places::only(&[]),
        }
    }

    // The places after a counted one that stays empty. Only a counted one may.
    pub fn skip(self) -> Option<Places>
        ensures { Skips self result }
    {
        match self.counted {
            [_, counted @ ..] => Some(Places {
                counted,
                listed: self.listed,
            }),
            [] => None,
        }
    }

    // The slot that the next kid goes into, and the places that are left then: the first counted one, else the list,
    // which takes any number.
    pub fn fill(self) -> Option<(Slot, Places)>
        ensures { Opens self result }
    {
        match self.counted {
            [slot, counted @ ..] => Some((
                *slot,
                Places {
                    counted,
                    listed: self.listed,
                },
            )),
            [] => Some((self.listed?, self)),
        }
    }

    // Whether a node of the kind, whose places these are, may have so many kids.
    pub fn fit(self, kind: SyntaxKind, kids: usize) -> bool
        requires { Fills self (kind_of (number_of_syntax kind)) }
        ensures { result ≡ count_fits (number_of_syntax kind) kids }
    {
        let least = self.counted.len();
        match self.listed {
            None => kids == least,
            Some(_) => kids >= least && short_enough(kind, kids),
        }
    }
}

// The places of a kind by its number, of which a number that is no kind has none. It promises something for every
// number, and to take a `SyntaxKind` would ask more of callers.
pub fn places_of(kind: u32) -> Places
    ensures { Fills result (kind_of kind) }
{
    match SyntaxKind::of(kind) {
        Some(kind) => Places::of(kind),
        None => Places::only(&[]),
    }
}

// By number for the same reason: a node whose number is no kind may have no kid.
pub fn count_fits(kind: u32, kids: usize) -> bool
    ensures { result ≡ count_fits kind kids }
{
    match SyntaxKind::of(kind) {
        Some(kind) => Places::of(kind).fit(kind, kids),
        None => kids == 0,
    }
}
