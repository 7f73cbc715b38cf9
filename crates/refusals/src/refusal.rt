// The nineteen refusals.
ghost use Rattle.std.specs.Prelude.{◌≡◌};
ghost use Rattle.refusals.specs.Numbers.{number_of};

// A variant's number is the one that a host is told: those of a sheet's lines and of the walk, 8 of a text, those of a
// state, 31 to 33 of a value in a line, and 34 of a change.
#[derive(Clone, Copy, PartialEq, Eq)]
pub enum Refusal {
    SheetTooLong = 1,
    Malformed = 2,
    WrongValue = 3,
    WrongArity = 4,
    MisplacedKid = 5,
    TooDeep = 6,
    NodesLeft = 7,
    TextTooLong = 8,
    StoreShort = 21,
    StoreUnsound = 22,
    NothingLoaded = 23,
    NoSuchNumber = 24,
    NotAReference = 25,
    BufferShort = 26,
    RoomSpent = 27,
    WrongFlag = 31,
    WrongText = 32,
    WrongRange = 33,
    MovedShort = 34,
}

impl Refusal {
    // The number that a host is told.
    pub fn number(self) -> u32
        ensures { result ≡ number_of self }
    {
        self as u32
    }
}
