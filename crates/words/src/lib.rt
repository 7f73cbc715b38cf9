// Numbers of four bytes and texts in a slice of bytes: read, written, compared, copied and moved.
//
// The lowest layer: it knows lists of bytes and places in them, and nothing of what the bytes are
// for. A text is a run of bytes, lent as a slice of its own. It may lie anywhere in a slice, and two
// runs of one slice may overlap. Every contract is an equation on lists, and a `requires` speaks of
// places and lengths alone.
#![tactic(auto)]

mod copying;
mod equality;
mod ordering;
mod word;

pub use copying::{copy_run, move_run};
pub use equality::equal;
pub use ordering::compare;
pub use word::{get32, put32};
