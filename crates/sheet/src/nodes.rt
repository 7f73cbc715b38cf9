// A node: six lines.
ghost use Rattle.std.specs.Prelude.{◌≡◌, ◌≤◌, length, eqb, if◌then◌else◌};
ghost use Rattle.spec.specs.Sheet.{number, wrong_kind, node};
ghost use Rattle.sheet.specs.Nodes.{got_kind, got_node, FormedNode};

use crate::faults::{Fault, Refused};
use crate::kinds::{flags_of, text_rule_of};
use crate::position::{Position, Span};
use module::SyntaxKind;

// The kind and the numbers of a node, where its kids and its text are written, and where the next node starts.
#[derive(Clone, Copy)]
pub struct Node {
    pub kind: SyntaxKind,
    pub from: u32,
    pub to: u32,
    pub flag: u32,
    pub kids: Span,
    pub text: Span,
    pub next: Position,
}

impl Position {
    // The kind of the node with the number i: node 0 is the Root. Which numbers are kinds is for `SyntaxKind` to say.
    fn kind(self, s: &[u8], i: u32) -> Result<(SyntaxKind, Position), Refused>
        requires { self.at ≤ length s.now }
        ensures { got_kind result ≡ (if eqb i 0 then number "kind=" wrong_kind 21 21 else number "kind=" wrong_kind 1 33) s.now self.at }
    {
        let wrong = self.refused(Fault::WrongKind);
        let (number, next) = self.number(s, b"kind=", Fault::WrongKind, 0, u32::MAX)?;
        let kind = SyntaxKind::of(number).ok_or(wrong)?;
        if i == 0 && kind != SyntaxKind::Root {
            return Err(wrong);
        }
        Ok((kind, next))
    }

    // The node with the number i, of `nodes`.
    pub fn node(self, s: &[u8], nodes: u32, i: u32) -> Result<Node, Refused>
        requires { self.at ≤ length s.now }
        ensures result_value { got_node s.now result ≡ node nodes i s.now self.at }
        ensures formed_node { FormedNode s.now nodes result }
    {
        let (kind, second) = self.kind(s, i)?;
        let (from, third) = second.number(s, b"from=", Fault::WrongRange, 0, u32::MAX)?;
        let (to, fourth) = third.number(s, b"to=", Fault::WrongRange, from, u32::MAX)?;
        let (flag, fifth) = fourth.number(s, b"flag=", Fault::WrongFlag, 0, flags_of(kind))?;
        let kids = fifth.kids(s, nodes)?;
        let text = kids.after().text(s, text_rule_of(kind), flag)?;
        Ok(Node {
            kind,
            from,
            to,
            flag,
            kids,
            text,
            next: text.after(),
        })
    }
}
