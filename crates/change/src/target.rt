// What a host would set the text of, before it is known whether there is such a number.
ghost use Rattle.std.specs.Prelude.{◌≡◌};
ghost use Rattle.moving.specs.Places.{place_of};
ghost use Rattle.change.specs.Targets.{target_of};

use module::{ExprId, NameId};
use moving::Place;

// The number is the host's: a plain word until it is known to be below its count.
#[derive(Clone, Copy)]
pub enum Target {
    Name(u32),
    Reference(u32),
}

impl Target {
    // The place, for who knows that.
    pub fn place(self) -> Place
        ensures { place_of result ≡ target_of self }
    {
        match self {
            Target::Name(number) => Place::Name(NameId(number)),
            Target::Reference(number) => Place::Reference(ExprId(number)),
        }
    }
}
