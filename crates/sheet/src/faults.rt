// What is wrong with a line or a list, and the refusal that it comes to.
ghost use Rattle.std.specs.Prelude.{◌≡◌};
ghost use Rattle.spec.specs.Sheet.{fault_number};
ghost use Rattle.refusals.specs.Numbers.{number_of};
ghost use Rattle.sheet.specs.Faults.{fault_of};

use refusals::Refusal;

// What is wrong with a line: its form, or what its value is about.
#[derive(Clone, Copy, PartialEq, Eq)]
pub enum Fault {
    Malformed,
    WrongCount,
    WrongKind,
    WrongRange,
    WrongFlag,
    WrongKid,
    WrongText,
}

// A line that is refused: why, and its first byte.
#[derive(Clone, Copy, PartialEq, Eq)]
pub struct Refused {
    pub why: Fault,
    pub at: usize,
}

// A sheet that is refused: for what, and where (docs/RULES.md, "A refusal is a number and a place").
#[derive(Clone, Copy, PartialEq, Eq)]
pub struct SheetRefused {
    pub why: Refusal,
    pub place: usize,
}

// A list of kids that has not the form of one.
#[derive(Clone, Copy, PartialEq, Eq)]
pub struct Malformed;

// A malformed line is refusal 2. A value that is wrong is 3, 31, 32 or 33, by what it is about.
impl From<Fault> for Refusal {
    ghost from_gives = { λ why r. number_of r ≡ fault_number (fault_of why) };

    fn from(why: Fault) -> Refusal {
        match why {
            Fault::Malformed => Refusal::Malformed,
            Fault::WrongCount | Fault::WrongKind | Fault::WrongKid => Refusal::WrongValue,
            Fault::WrongFlag => Refusal::WrongFlag,
            Fault::WrongText => Refusal::WrongText,
            Fault::WrongRange => Refusal::WrongRange,
        }
    }
}

impl From<Refused> for SheetRefused {
    ghost from_gives = { λ line r. (number_of r.why ≡ fault_number (fault_of line.why)) × (r.place ≡ line.at) };

    fn from(line: Refused) -> SheetRefused {
        SheetRefused {
            why: Refusal::from(line.why),
            place: line.at,
        }
    }
}
