// How many rows of a table are in use: the number of the next one.
ghost use Rattle.std.specs.Prelude.{◌≡◌, ◌+◌, ◌<◌, ltb};

#[derive(Clone, Copy)]
pub struct Counter {
    pub used: u32,
}

impl Counter {
    // Whether one more is within the limit.
    pub fn has_room(self, limit: u32) -> bool
        ensures { result ≡ ltb self.used limit }
    {
        self.used < limit
    }

    // One more is in use.
    pub fn next(self) -> Counter
        requires { self.used < 4294967295 }
        ensures { result.used ≡ self.used + 1 }
    {
        Counter {
            used: self.used + 1,
        }
    }
}
