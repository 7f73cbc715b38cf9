// A load: a sheet is judged first, which writes nothing; an accepted one then fills the store.
#![tactic(auto)]

ghost use Rattle.std.specs.Prelude.{◌≡◌};
ghost use Rattle.layout.specs.Layout.{Long};
ghost use Rattle.replies.specs.Replies.{returned, reply_after, load_outcome};
ghost use Rattle.load.specs.Loads.{judged_in, Leaves};
ghost use Rattle.load.specs.Filled.{Fills};

use intake::bring_nodes;
use layout::tables::STORE_BYTES;
use lower::lower;
use nameres::keep_module;
use refusals::Refusal;
use replies::{REPLY_BYTES, Refused, tell_count};
use store::clear;

// The nodes of an accepted sheet, then what is made of them. All counts are 0 first, so that nothing of an earlier load
// is left. The nodes of such a sheet always find room, so that bring_nodes need not be asked whether they did. It reads
// how many there are again: to be handed the number, it would have to ask that it is the sheet's.
fn fill(sheet: &[u8], store: &mut [u8])
    requires { Long store.old }
    ensures { Fills sheet.now store.old store.new }
{
    clear(store);
    bring_nodes(sheet, store);
    lower(store);
    keep_module(store);
}

// Refusal 21, then those of the sheet, each with its place; or 0, and the store is filled. A place is at most 1048576,
// being that of a byte in a sheet that is not too long, or a node's number (`refused_place`, spec/proofs/reading):
// nothing of it is cut off.
pub fn load(sheet: &[u8], store: &mut [u8], reply: &mut [u8]) -> u32
    ensures value { result ≡ returned (load_outcome (judged_in sheet.now store.old reply.old)) }
    ensures reply_after { reply.new ≡ reply_after (load_outcome (judged_in sheet.now store.old reply.old)) reply.old }
    ensures leaves { Leaves (judged_in sheet.now store.old reply.old) store.old store.new }
{
    if reply.len() < REPLY_BYTES {
        return Refusal::StoreShort.number();
    }
    if store.len() < STORE_BYTES {
        return Refused(Refusal::StoreShort, 0).tell(reply);
    }
    match tree::judge(sheet) {
        Err(refused) => Refused(refused.why, refused.place as u32).tell(reply),
        Ok(_) => {
            fill(sheet, store);
            tell_count(reply, 0)
        }
    }
}
