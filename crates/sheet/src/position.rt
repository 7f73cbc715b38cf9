// Where a reader stands, and what it points at.
ghost use Rattle.std.specs.Prelude.{◌≡◌, ◌+◌, ◌<◌, ◌≤◌, length};
ghost use Rattle.sheet.specs.Lines.{span_of};

use crate::faults::{Fault, Refused};

// The place of the next line. A reader takes it and hands the next one back. None is put together outside of this
// file: it is the first line's, or that of the line after a value that was read. So nobody has to know how a line ends
// to go on to the next.
//
// A place alone, and the readers ask that it lies in the sheet they are given: a walk keeps a position from node to
// node beside the sheet, and one with the sheet in it would keep the slice twice.
#[derive(Clone, Copy)]
pub struct Position {
    pub at: usize,
}

impl Position {
    // The first line of a sheet, whatever the sheet is.
    pub fn first() -> Position
        ensures { result.at ≡ 0 }
    {
        Position { at: 0 }
    }

    // The line here is refused.
    pub(crate) fn refused(self, why: Fault) -> Refused
        ensures { (result.why ≡ why) × (result.at ≡ self.at) }
    {
        Refused { why, at: self.at }
    }
}

// A part of the sheet: its first place, and the place after its last byte.
#[derive(Clone, Copy)]
pub struct Span {
    pub start: usize,
    pub end: usize,
}

impl Span {
    // Its bytes, in the sheet.
    #[tactic(auto, unfolding(words::specs::Runs::run))]
    pub fn of<'a>(self, s: &'a [u8]) -> &'a [u8]
        requires { (self.start ≤ self.end) × (self.end ≤ length s.now) }
        ensures { result.now ≡ span_of s.now self }
    {
        &s[self.start..self.end]
    }

    // The line after the one whose value this span is: the byte 10 at the span's end is between them. A value that was
    // read ends inside its sheet, so below the greatest number that a place can be, and the sum never wraps.
    pub fn after(self) -> Position
        requires { self.end < 18446744073709551615 }
        ensures { result.at ≡ self.end + 1 }
    {
        Position { at: self.end + 1 }
    }
}
