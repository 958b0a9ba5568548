// The lines' types. Their rules are in specs/, what follows from them in proofs/.
#![tactic(auto)]

use strip::{Answer, Element};

// The numbers of the lines: the kind, 1 a queue a line and 2 one queue over all; how many lines; how many places a line has.
#[derive(Clone, Copy)]
pub struct Rows {
    pub kind: u32,
    pub lines: usize,
    pub places: usize,
}

// What is still to be done at the lines: nothing; x is to be put into a line; a line is to be taken from; a line is to be taken from and x put
// into the line where it belongs.
#[derive(Clone, Copy)]
pub enum Due {
    Rest,
    Put(usize, Element),
    Take(usize),
    Swap(usize, Element),
}

// What a request comes to: its answer, and what is to be done for it.
#[derive(Clone, Copy)]
pub struct Choice {
    pub answer: Answer,
    pub due: Due,
}
