// All that is refused because of the sheet: its lines first, then its tree.
ghost use Rattle.std.specs.Prelude.{◌≡◌};
ghost use Rattle.spec.specs.Tree.{judge};
ghost use Rattle.sheet.specs.Sheets.{numbered, answer};
ghost use Rattle.tree.specs.Judge.{Nodes, told};

use crate::nodes::Tree;
use crate::walk::Parent;
use refusals::Refusal;
use sheet::{Position, SheetRefused, read_sheet};

// Root is at depth 1, and the deepest node at 256.
const LEVELS_BELOW_ROOT: u32 = 255;

// The tree of accepted lines. Refusal 7: a node that the walk did not meet, the first of which is told.
fn judge_tree(s: &[u8], nodes: u32, first: Position) -> Result<(), SheetRefused>
    requires { Nodes s.now nodes first }
    ensures { told s.now result ≡ judge s.now }
{
    let tree = Tree { sheet: s, nodes };
    let root = tree.lines(0, first);
    let top = Parent {
        node: 0,
        left: LEVELS_BELOW_ROOT,
    };
    let front = tree.walk(top, root)?;
    let next = front.highest as usize + 1;
    if next != nodes as usize {
        return Err(SheetRefused {
            why: Refusal::NodesLeft,
            place: next,
        });
    }
    Ok(())
}

// How many nodes an accepted sheet has, and where the first one starts; or refusals 1 to 7 and 31 to 33.
pub fn judge(s: &[u8]) -> Result<(u32, Position), SheetRefused>
    ensures { numbered result ≡ answer s.now (judge s.now) }
{
    let (nodes, first) = read_sheet(s)?;
    judge_tree(s, nodes, first)?;
    Ok((nodes, first))
}
