// The nodes of an accepted sheet, read once more.
ghost use Rattle.std.specs.Prelude.{◌≡◌, ◌<◌, length};
ghost use Rattle.tree.specs.Nodes.{nodes_in, Stands, kids_in, Kids, FirstKid, Read};

use module::SyntaxKind;
use sheet::{Position, next_kid};

// A tree as an accepted sheet has it: so many nodes, each by its lines.
#[derive(Clone, Copy)]
pub struct Tree<'a> {
    pub sheet: &'a [u8],
    pub nodes: u32,
    ghost counted: { nodes ≡ length (nodes_in sheet.now) },
}

// What the walk needs of a node's lines: its kind, the list of its kids, the place of the next node.
#[derive(Clone, Copy)]
pub struct Lines<'a> {
    pub kind: SyntaxKind,
    pub kids: &'a [u8],
    pub next: Position,
}

impl<'a> Tree<'a> {
    // The lines of the node n, which stands here. No line of an accepted sheet is wrong.
    pub fn lines(self, n: u32, here: Position) -> Lines<'a>
        requires { (n < self.nodes) × Stands self.sheet.now n here.at }
        ensures { Read self.entry.sheet.now n result }
    {
        let Ok(node) = here.node(self.sheet, self.nodes, n) else {
            unreachable!()
        };
        Lines {
            kind: node.kind,
            kids: node.kids.of(self.sheet),
            next: node.next,
        }
    }
}

// The functions on a list each ask for `Kids`: a struct around the bytes with it as a ghost field would ask for it once,
// but be made anew from each kid's rest.

// The first kid of a list, which may be absent, and the list after it. A list in an accepted sheet has the right form.
pub fn first_kid(kids: &[u8]) -> Option<(Option<u32>, &[u8])>
    requires { Kids kids.now }
    ensures { FirstKid kids.now result }
{
    let Ok(first) = next_kid(kids) else {
        unreachable!()
    };
    first
}

// How many kids a list has, absent ones too: one more than its commas, or none where it is empty.
pub fn count_kids(kids: &[u8]) -> usize
    requires { Kids kids.now }
    ensures { result ≡ length (kids_in kids.now) }
{
    if kids.is_empty() {
        return 0;
    }
    kids.iter().filter(|b| **b == b',').count() + 1
}
