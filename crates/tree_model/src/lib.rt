// The types that the tree's rules, its steps and its pending work share. The rules are in specs/, the theorems in proofs/.
#![tactic(auto)]

use strip::Element;

// What is to be done at a node.
#[derive(Clone, Copy)]
pub enum Op {
    Nothing,
    Put(Element),
    Take,
    Swap(Element),
}

// A slot: its element, and how many it covers, its own and all below it.
#[derive(Clone, Copy)]
pub struct Slot {
    pub element: Element,
    pub count: u32,
}

// One step at a node: the slot at this place is rewritten, and the rest is to be done at the node below that place.
#[derive(Clone, Copy)]
pub struct Move {
    pub place: usize,
    pub slot: Slot,
    pub rest: Op,
}

// What is to be done, and at which node of a level.
#[derive(Clone, Copy)]
pub struct Work {
    pub op: Op,
    pub node: usize,
}
