// The whole sheet: its length, the count of nodes, the nodes, and nothing after them.
ghost use Rattle.std.specs.Prelude.{◌≡◌, ◌≤◌, length};
ghost use Rattle.spec.specs.Sheet.{nodes_from, read_sheet};
ghost use Rattle.sheet.specs.Sheets.{counted, got_nodes, numbered, answer};

use crate::faults::{Fault, Refused, SheetRefused};
use crate::position::Position;
use refusals::Refusal;

// The longest sheet, and the most nodes of one. The crate layout, on which this one does not rest, has the same number
// for the nodes of a store.
const SHEET_BYTES: usize = 1048576;

const NODE_LIMIT: u32 = 4096;

impl Position {
    // All nodes, of which there are `nodes`, and where the last one ends.
    fn nodes(self, s: &[u8], nodes: u32) -> Result<Position, Refused>
        requires { self.at ≤ length s.now }
        ensures { got_nodes nodes result ≡ counted (nodes_from nodes nodes 0 s.now self.at) }
    {
        let mut here = self;
        for i in 0..nodes {
            here = here.node(s, nodes, i)?.next;
        }
        Ok(here)
    }
}

// How many nodes an accepted sheet has, and where the first one starts; or refusals 1 to 3 and 31 to 33.
pub fn read_sheet(s: &[u8]) -> Result<(u32, Position), SheetRefused>
    ensures { numbered result ≡ answer s.now (read_sheet s.now) }
{
    if SHEET_BYTES < s.len() {
        return Err(SheetRefused {
            why: Refusal::SheetTooLong,
            place: 0,
        });
    }
    let (nodes, first) = Position::first().number(s, b"nodes=", Fault::WrongCount, 1, NODE_LIMIT)?;
    let last = first.nodes(s, nodes)?;
    if last.at != s.len() {
        return Err(SheetRefused {
            why: Refusal::Malformed,
            place: last.at,
        });
    }
    Ok((nodes, first))
}
