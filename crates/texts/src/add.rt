// A text is added after those that are there.
ghost use Rattle.layout.specs.Layout.{Long};
ghost use Rattle.texts.specs.Adds.{Texted};

use layout::tables::{ABSENT, TEXT_LIMIT, TEXTS, TEXTS_PLACE};
use module::TextId;
use words::{copy_run, get32, put32};

// The longest text, which stands alone behind its length.
const LONGEST: usize = TEXT_LIMIT as usize - 4;

// A text with these bytes. The mark is the empty text, and nothing is written for it; nor is it where
// there is no room.
pub fn add_text(store: &mut [u8], bytes: &[u8]) -> TextId
    requires { Long store.old }
    ensures { Texted bytes.now store.old result.0 store.new }
{
    let n = bytes.len();
    let k = get32(store, TEXTS_PLACE);
    if n == 0 || LONGEST < n || LONGEST - n < k as usize {
        return TextId(ABSENT);
    }
    let place = TEXTS + k as usize;
    put32(store, place, n as u32);
    copy_run(store, place + 4, bytes);
    put32(store, TEXTS_PLACE, k + 4 + n as u32);
    TextId(k)
}
