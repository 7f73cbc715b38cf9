// Texts in a store: lent and compared where they lie, added after those that are there, and which numbers are those of
// texts within the bytes in use.
//
// The crates above hold the number of a text and ask here what its bytes are; what any bytes say of a text is layout's
// definition.
#![tactic(auto)]

mod add;
mod held;
mod read;

pub use add::add_text;
pub use held::{held_text, text_fits};
pub use read::{compare_texts, text_bytes, text_is, text_range, texts_equal};
