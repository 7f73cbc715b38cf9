// What the programs print of a store, on the writer that they pass, which is standard output: the lines that document 01
// gives the program refsheet (docs/RULES.md, "Followed examples"), a field a line.
//
// No contract can say what a program writes. Nothing here returns anything but the error of a write that failed, after
// which no more is printed, and nothing writes to what is lent. What the lines say comes from `ask::ask_reference`, the
// function behind the exported call, so that they are what a host is told.
#![tactic(auto)]

mod answers;
mod lines;

pub use answers::{print_answer, print_load, print_module, print_refusal, reply_word, told_list};
pub use lines::{print_line, print_list};
