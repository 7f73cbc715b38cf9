// What every call of a host that asks a store or changes it begins with: refusals 21 to 23, for any bytes.
//
// Any bytes may be the store: one that is not fit is refused before anything more of it is read. What a call comes to,
// and what it leaves, is said here for all of them (specs/Requests).
#![tactic(auto)]

ghost use Rattle.requests.specs.Requests.{Begun, refused_with};

use refusals::Refusal;
use replies::{REPLY_BYTES, Refused};
use soundness::condition;

// The refusal that a call comes to whatever it is about, told in a reply that is long enough; else the call may go on.
// Each call matches on it: it returns a number, so that `?` is of no use, and one function for all of them would take
// the rest of a call as a closure over the slices that the call writes.
pub fn begin(store: &[u8], reply: &mut [u8]) -> Result<(), Refusal>
    ensures { Begun store.now reply.old (refused_with result) reply.new }
{
    if reply.len() < REPLY_BYTES {
        return Err(Refusal::StoreShort);
    }
    match condition(store) {
        Ok(()) => Ok(()),
        Err(unfit) => {
            let why = Refusal::from(unfit);
            Refused(why, 0).tell(reply);
            Err(why)
        }
    }
}
