// A line whose value is a number in a range.
ghost use Rattle.std.specs.Prelude.{◌≡◌, ◌≤◌, length};
ghost use Rattle.sheet.specs.Keyed.{number_of};
ghost use Rattle.sheet.specs.Faults.{fault_of};
ghost use Rattle.sheet.specs.Numbers.{got_number};

use crate::decimals::decimal;
use crate::faults::{Fault, Refused};
use crate::position::Position;

impl Position {
    // A number from lo to hi, and the next line; `why` says what is wrong with one outside.
    pub fn number(
        self,
        s: &[u8],
        key: &[u8],
        why: Fault,
        lo: u32,
        hi: u32,
    ) -> Result<(u32, Position), Refused>
        requires { self.at ≤ length s.now }
        ensures { got_number result ≡ number_of key.now (fault_of why) lo hi s.now self.at }
    {
        let malformed = self.refused(Fault::Malformed);
        let value = self.line(s, key).ok_or(malformed)?;
        let n = decimal(value.of(s)).ok_or(malformed)?;
        if n < u64::from(lo) || u64::from(hi) < n {
            return Err(self.refused(why));
        }
        Ok((n as u32, value.after()))
    }
}
