// The walk: depth first from a node, its kids in order; refusals 4, 5 and 6.
//
// The nodes stand in the sheet in the order in which the walk meets them, or the walk is refused. So
// it reads the sheet forward, and all that it remembers is the highest node met and the place after it.
ghost use Rattle.std.specs.Prelude.{◌≡◌, true, ◌+◌, ◌<◌, length};
ghost use Rattle.std.specs.Option.{ForSome};
ghost use Rattle.spec.specs.Sheet.{all_below};
ghost use Rattle.spec.specs.Tree.{walk_to};
ghost use Rattle.tree.specs.Slots.{slot_of};
ghost use Rattle.tree.specs.Nodes.{nodes_in, Stands, kids_in, Kids, Read};
ghost use Rattle.tree.specs.Walk.{Walks, entered, kids_walk, TodoStands, Steps};

use crate::nodes::{Lines, Tree, count_kids, first_kid};
use crate::places::Places;
use crate::slots::Slot;
use refusals::Refusal;
use sheet::{Position, SheetRefused};

// A node as a parent of kids: its number, and how many levels are left below it.
#[derive(Clone, Copy)]
pub struct Parent {
    pub node: u32,
    pub left: u32,
}

// The highest node met, and the place of the node after it.
#[derive(Clone, Copy)]
pub struct Front {
    pub highest: u32,
    pub next: Position,
}

// The places that are left for a node's other kids, and how far the walk has come.
#[derive(Clone, Copy)]
pub struct Todo {
    pub places: Places,
    pub front: Front,
}

impl Parent {
    // The node is refused as a parent.
    fn refused(self, why: Refusal) -> SheetRefused
        ensures { (result.why ≡ why) × (result.place ≡ self.node) }
    {
        SheetRefused {
            why,
            place: self.node as usize,
        }
    }
}

impl Tree<'_> {
    // The kid k, which goes into the slot: the place and the kind are judged before the depth.
    #[cycle(walk)]
    fn enter(self, parent: Parent, k: u32, slot: Slot, front: Front) -> Result<Front, SheetRefused>
        requires { (k < self.nodes) × Stands self.sheet.now (front.highest + 1) front.next.at }
        ensures { Walks self.entry.sheet.now (entered (nodes_in self.entry.sheet.now) parent.left parent.node (slot_of slot) k front.highest) result }
    {
        if k != front.highest + 1 {
            return Err(parent.refused(Refusal::MisplacedKid));
        }
        let lines = self.lines(k, front.next);
        if !slot.takes(lines.kind) {
            return Err(parent.refused(Refusal::MisplacedKid));
        }
        if parent.left == 0 {
            return Err(parent.refused(Refusal::TooDeep));
        }
        let kid = Parent {
            node: k,
            left: parent.left - 1,
        };
        self.walk(kid, lines)
    }

    // The next kid, or an absent one: only a counted place may stay empty.
    #[cycle(walk)]
    fn walk_kid(self, parent: Parent, kid: Option<u32>, todo: Todo) -> Result<Todo, SheetRefused>
        requires { ForSome kid (λ k. k < self.nodes) × TodoStands self.sheet.now todo }
        ensures { Steps self.entry.sheet.now parent.left parent.node kid todo result }
    {
        let Some(k) = kid else {
            let places = todo
                .places
                .skip()
                .ok_or(parent.refused(Refusal::MisplacedKid))?;
            return Ok(Todo {
                places,
                front: todo.front,
            });
        };
        let (slot, places) = todo
            .places
            .fill()
            .ok_or(parent.refused(Refusal::MisplacedKid))?;
        let front = self.enter(parent, k, slot, todo.front)?;
        Ok(Todo { places, front })
    }

    // All kids, in order.
    #[cycle(walk)]
    fn walk_kids(
        self,
        parent: Parent,
        mut kids: &[u8],
        mut todo: Todo,
    ) -> Result<Front, SheetRefused>
        requires { Kids kids.now × ((all_below self.nodes (kids_in kids.now) ≡ true) × TodoStands self.sheet.now todo) }
        ensures { Walks self.entry.sheet.now (kids_walk self.entry.sheet.now parent.left parent.node todo (kids_in kids.now)) result }
    {
        // `while let` and no `split`, which takes the empty list for one part: `next_kid` says the form of a list for
        // all who go through one.
        while let Some((kid, rest)) = first_kid(kids) {
            todo = self.walk_kid(parent, kid, todo)?;
            kids = rest;
        }
        Ok(todo.front)
    }

    // A node, whose lines were read, and all below it.
    #[cycle(walk)]
    pub fn walk(self, parent: Parent, lines: Lines) -> Result<Front, SheetRefused>
        requires { Read self.sheet.now parent.node lines }
        ensures { Walks self.entry.sheet.now (walk_to (nodes_in self.entry.sheet.now) parent.left parent.node) result }
    {
        let places = Places::of(lines.kind);
        if !places.fit(lines.kind, count_kids(lines.kids)) {
            return Err(parent.refused(Refusal::WrongArity));
        }
        let front = Front {
            highest: parent.node,
            next: lines.next,
        };
        self.walk_kids(parent, lines.kids, Todo { places, front })
    }
}
