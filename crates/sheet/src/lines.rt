// A line: its key, its value, byte 10. The line's end is found once; the value is then judged as a
// span of the sheet.
ghost use Rattle.std.specs.Prelude.{◌≡◌, ◌==◌, ◌≤◌, length, drop, position};
ghost use Rattle.spec.specs.Sheet.{after};
ghost use Rattle.sheet.specs.Keyed.{line_of};
ghost use Rattle.sheet.specs.Lines.{rest_of, got_line, ValueInside};

use crate::position::{Position, Span};

// How many bytes come before the first byte 10. The loop of `position` is as fast as one by hand on values of 2 to 40
// bytes; `memchr` takes twice as long on the short values that most lines have.
fn line_end(rest: &[u8]) -> Option<usize>
    ensures { result ≡ position (λ b. b == 10) rest.now }
{
    rest.iter().position(|b| *b == b'\n')
}

impl Position {
    // What follows the key, where the key is here.
    pub(crate) fn after_key<'a>(self, s: &'a [u8], key: &[u8]) -> Option<&'a [u8]>
        requires { self.at ≤ length s.now }
        ensures { rest_of result ≡ after key.now (drop self.at s.now) }
    {
        let line = &s[self.at..];
        line.strip_prefix(key)
    }

    // The value of the line here, which has to have the key; none where it lacks its key or its byte 10.
    pub fn line(self, s: &[u8], key: &[u8]) -> Option<Span>
        requires { self.at ≤ length s.now }
        ensures result_value { got_line s.now self.at result ≡ line_of key.now s.now self.at }
        ensures value_inside { ValueInside result (length s.now) }
    {
        let rest = self.after_key(s, key)?;
        let length = line_end(rest)?;
        let start = self.at + key.len();
        Some(Span {
            start,
            end: start + length,
        })
    }
}
