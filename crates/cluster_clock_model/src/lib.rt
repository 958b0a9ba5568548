// The types of the clocked cluster heap that go by value. Its rules are in specs/, the theorems in proofs/.
#![tactic(auto)]

use strip::{Cycled, Drained, Element};

// How many records there are: one for each level from 2, as many as two places a node need, that have the most levels, 11.
// They stand in an array, with the levels beside it: the card has no heap.
pub const STAGES: usize = 10;

// What is left to be done between a level and the next: put onto a node of the next level; fill a place of a node of this one, that is a gap; or the element
// in a place of it is on trial.
#[derive(Clone, Copy)]
pub enum Due {
    Nothing,
    Put(Element),
    Fill(usize),
    Swap(usize, Element),
}

// A pending record: what is due, and at which node.
#[derive(Clone, Copy)]
pub struct Stage {
    pub due: Due,
    pub node: usize,
}

// What a cycle answers, and the records that it leaves, that of level 2 first.
pub type ClusterCycled = Cycled<[Stage; STAGES]>;

// What a drain reports: done or a refusal, the number of cycles run, whether work is left, and the records that it leaves.
pub type ClusterDrained = Drained<[Stage; STAGES]>;
