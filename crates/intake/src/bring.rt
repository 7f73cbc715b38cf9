// Brings the nodes of a sheet into the store: their rows, their kids and their texts. Each is appended to those
// before it, so that what was brought stays as it is.
ghost use Rattle.std.specs.Prelude.{◌<◌, ◌≤◌, is_some};
ghost use Rattle.layout.specs.Layout.{node_limit, kid_limit, sheet_text_limit, Long};
ghost use Rattle.module.specs.SyntaxKinds.{number_of_syntax};
ghost use Rattle.intake.specs.Bring.{Kids, KidRead, KidsBrought, TextIn, Rows, RowPut, Spans, RowBrought, Bringing, NodeBrought, Counted, AllBrought, Brought};

use crate::nodes::KIND;
use layout::put_words;
use layout::tables::{
    ABSENT, KID_LIMIT, KIDS, NODE_COUNT, NODE_LIMIT, NODE_ROW, NODES, SHEET_TEXT_LIMIT, TEXTS,
    TEXTS_PLACE,
};
use sheet::{Fault, Malformed, Node, Position, decode_text, next_kid};
use words::put32;

// The place of the next node in the sheet, and where its kids and its text will lie.
#[derive(Clone, Copy)]
pub struct Front {
    pub next: Position,
    pub kids: u32,
    pub texts: u32,
}

// The word of the first kid of a list, and the list after it; none where no kid is left.
fn kid_word<'a>(kids: &'a [u8]) -> Option<(u32, &'a [u8])>
    requires { Kids kids.now }
    ensures { KidRead kids.now result }
{
    match next_kid(kids) {
        Ok(Some((Some(k), rest))) => Some((k, rest)),
        Ok(Some((None, rest))) => Some((ABSENT, rest)),
        Ok(None) => None,
        // Not of a list that was judged right.
        Err(Malformed) => None,
    }
}

// The kids of a list, from the place `first` on; gives the place after them, or none where there is no room.
fn bring_kids(kids: &[u8], first: u32, store: &mut [u8]) -> Option<u32>
    requires { Long store.old × (Kids kids.now × (first ≤ kid_limit)) }
    ensures { KidsBrought kids.now store.old store.new first result }
{
    let mut left = kids;
    for used in first..KID_LIMIT {
        let Some((word, rest)) = kid_word(left) else {
            return Some(used);
        };
        put32(store, KIDS + 4 * (used as usize), word);
        left = rest;
    }
    // No place is left: right only where no kid is left either.
    match kid_word(left) {
        Some(_) => None,
        None => Some(KID_LIMIT),
    }
}

// A text: its length, and its bytes after that; gives the place after them, or none where there is no room.
fn bring_text(text: &[u8], texts: u32, store: &mut [u8]) -> Option<u32>
    requires { Long store.old × (texts ≤ sheet_text_limit) }
    ensures { TextIn text.now store.old store.new texts result }
{
    let n = text.len() / 2;
    let first = texts as usize;
    if SHEET_TEXT_LIMIT < first + 4 + n {
        return None;
    }
    put32(store, TEXTS + first, n as u32);
    decode_text(text, store, TEXTS + first + 4);
    Some((first + 4 + n) as u32)
}

// The row of the node i after its first word, which is there already, and the first word of the next row, which lies
// behind them.
fn put_row(store: &mut [u8], i: u32, node: Node, text: u32, end: u32)
    requires { Long store.old × (i < node_limit) }
    ensures { RowPut store.old store.new i (number_of_syntax node.kind) node.from node.to node.flag text end }
{
    let row = NODES + NODE_ROW * (i as usize);
    let kind = node.kind.number();
    put_words(
        store,
        row + KIND,
        [kind, node.from, node.to, node.flag, text, end],
    );
}

// The node i: its kids, its text, and last its row; gives where the next one begins, or none where there is no room.
fn bring_row(sheet: &[u8], i: u32, node: Node, front: Front, store: &mut [u8]) -> Option<Front>
    requires { Long store.old × ((i < node_limit) × (Spans sheet.now node × Rows store.old i front.kids front.texts)) }
    ensures { RowBrought sheet.now node store.old store.new i front result }
{
    let end = bring_kids(node.kids.of(sheet), front.kids, store)?;
    let texts = bring_text(node.text.of(sheet), front.texts, store)?;
    put_row(store, i, node, front.texts, end);
    Some(Front {
        next: node.next,
        kids: end,
        texts,
    })
}

// The node i of `nodes`, read at the front's place.
fn bring_node(sheet: &[u8], nodes: u32, i: u32, front: Front, store: &mut [u8]) -> Option<Front>
    requires { Long store.old × ((nodes ≤ node_limit) × ((i < nodes) × Bringing sheet.now nodes i front store.old)) }
    ensures { NodeBrought sheet.now nodes i store.old store.new result }
{
    let node = front.next.node(sheet, nodes, i).ok()?;
    bring_row(sheet, i, node, front, store)
}

// All nodes, and how many bytes their texts take.
fn bring_all(sheet: &[u8], nodes: u32, first: Front, store: &mut [u8]) -> Option<u32>
    requires { Long store.old × ((nodes ≤ node_limit) × Bringing sheet.now nodes 0 first store.old) }
    ensures { AllBrought sheet.now nodes store.old store.new result }
{
    let mut front = first;
    for i in 0..nodes {
        front = bring_node(sheet, nodes, i, front, store)?;
    }
    Some(front.texts)
}

// So many nodes, the first of which stands at `next`. They are counted last, once all of them are there. The bytes of
// texts in use are set twice: a text past them reads as empty, so first all those that a sheet's texts may take are in
// use, that each node has its text as soon as it is there, and at the end those that the texts took.
fn bring_counted(sheet: &[u8], nodes: u32, next: Position, store: &mut [u8]) -> Option<()>
    requires { Long store.old × Counted sheet.now nodes next.at }
    ensures { Brought sheet.now store.old store.new (is_some result) }
{
    put32(store, TEXTS_PLACE, SHEET_TEXT_LIMIT as u32);
    put32(store, NODES, 0);
    let first = Front {
        next,
        kids: 0,
        texts: 0,
    };
    let texts = bring_all(sheet, nodes, first, store)?;
    put32(store, TEXTS_PLACE, texts);
    put32(store, NODE_COUNT, nodes);
    Some(())
}

// The nodes of a sheet; false where a line is wrong, or where its kids or its texts find no room. Of an accepted
// sheet no line is wrong, and its texts find room.
pub fn bring_nodes(sheet: &[u8], store: &mut [u8]) -> bool
    requires { Long store.old }
    ensures { Brought sheet.now store.old store.new result }
{
    let start = Position::first();
    match start.number(sheet, b"nodes=", Fault::WrongCount, 1, NODE_LIMIT) {
        Err(_) => false,
        Ok((nodes, first)) => bring_counted(sheet, nodes, first, store).is_some(),
    }
}
