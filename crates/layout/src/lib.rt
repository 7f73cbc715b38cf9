// Where everything lies in a store, and what its bytes say: docs/STORE.md as definitions.
//
// The crates layout, texts, rows, intake, store, open_sets, kept, listing and soundness are the layer that knows
// offsets; nobody above does.
// This one has the decoding of any bytes (specs/), what a write leaves as it was (proofs/), and the
// writes that the others share.
#![tactic(auto)]

mod rows;
pub mod tables;

pub use rows::{at_most, counter, get_pointer, in_use, put_pointer, put_words};
