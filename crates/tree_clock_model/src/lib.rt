// The types of the clocked tree that go by value. Its rules are in specs/, the theorems in proofs/.
#![tactic(auto)]

use tree_model::Work;

// How many records there are: one for each level from 2, as many as order 2 needs, that has the most levels, 15.
// They stand in an array, with the levels beside it: the card has no heap.
pub const RECORDS: usize = 14;

// What stands beside the store between two cycles: the pending records, that of level 2 first, and whether the last cycle's operation was
// answered without refusal.
#[derive(Clone, Copy)]
pub struct State {
    pub records: [Work; RECORDS],
    pub mark: bool,
}

// What a cycle answers, and the state that it leaves.
pub type Cycled = strip::Cycled<State>;

// What a drain reports: done or a refusal, the number of cycles run, whether work is left, and the state that it leaves.
pub type Drained = strip::Drained<State>;
