// docs/RULES.md, "Nodes": "The node's pointer is kind, from, to."
// The default, 0, 0, 0, is what a number out of range has.
#[derive(Clone, Copy, Default, PartialEq, Eq)]
pub struct Pointer {
    pub kind: u32,
    pub from: u32,
    pub to: u32,
}
