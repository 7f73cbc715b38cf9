// The kinds of names, and their numbers in a store.
ghost use Rattle.std.specs.Prelude.{◌≡◌};
ghost use Rattle.module.specs.Kinds.{number_of_kind, kind_of_number};

// A variant's number is its kind's number in a store.
#[derive(Clone, Copy)]
pub enum NameKind {
    LetIn = 0,
    PlainAttrset = 1,
    RecAttrset = 2,
    Param = 3,
    PatField = 4,
}

impl NameKind {
    // A method and no `From`: the name says which number it is.
    pub fn number(self) -> u32
        ensures { result ≡ number_of_kind self }
    {
        self as u32
    }
}

// The kind that has the number; the last one for a number that no kind has.
impl From<u32> for NameKind {
    ghost from_gives = { λ number kind. kind ≡ kind_of_number number };

    #[tactic(auto, unfolding(crate::specs::Kinds::kind_of_number))]
    fn from(number: u32) -> NameKind {
        match number {
            0 => NameKind::LetIn,
            1 => NameKind::PlainAttrset,
            2 => NameKind::RecAttrset,
            3 => NameKind::Param,
            _ => NameKind::PatField,
        }
    }
}
