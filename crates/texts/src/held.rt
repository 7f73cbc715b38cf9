// Which numbers are those of texts within the bytes in use.
//
// There are two questions. A reader asks it of any bytes, whatever number of bytes in use they say, and takes what lies
// past these for the empty text. The check of a store asks it of a number that stands in a row, once it has read how
// many bytes are in use and found that within its limit; there the mark for the empty text passes too.
ghost use Rattle.std.specs.Prelude.{◌≡◌, ◌+◌, ◌≤◌, leb};
ghost use Rattle.words.specs.Words.{word};
ghost use Rattle.layout.specs.Layout.{texts_at, texts_place, text_limit, Long};
ghost use Rattle.layout.specs.Texts.{text_held};
ghost use Rattle.texts.specs.Fits.{text_fits, Held};

use layout::in_use;
use layout::tables::{ABSENT, TEXT_LIMIT, TEXTS, TEXTS_PLACE};
use words::get32;

// Whether the text at this place lies within the `used` bytes. Its length is read only where it lies in the store.
fn lies_within(store: &[u8], used: u32, t: u32) -> bool
    requires { Long store.now × (used ≤ text_limit) }
    ensures { result ≡ leb (t + 4 + word store.now (texts_at + t)) used }
{
    let place = t as usize;
    let end = used as usize;
    if end < place + 4 {
        return false;
    }
    let len = get32(store, TEXTS + place) as usize;
    place + 4 + len <= end
}

pub fn text_held(store: &[u8], t: u32) -> bool
    requires { Long store.now }
    ensures { result ≡ text_held store.now t }
{
    let used = in_use(store, TEXTS_PLACE, TEXT_LIMIT);
    lies_within(store, used, t)
}

// The number of a text, as it is written to a row. Another number reads as the empty text, and the mark for the empty
// text is written in its place, so that what is written is sound whatever was given.
pub fn held_text(store: &[u8], t: u32) -> u32
    requires { Long store.now }
    ensures { Held t store.now result }
{
    if text_held(store, t) { t } else { ABSENT }
}

// A text's number in a row: the mark, or the place of a text that lies within the `used` bytes.
pub fn text_fits(store: &[u8], used: u32, text: u32) -> bool
    requires { Long store.now × ((used ≡ word store.now texts_place) × (used ≤ text_limit)) }
    ensures { result ≡ text_fits store.now text }
{
    text == ABSENT || lies_within(store, used, text)
}
