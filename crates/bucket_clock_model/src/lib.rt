// The types of the clocked bucket queue that go by value, and the empty record. Its rules are in specs/, the theorems in proofs/.
#![tactic(auto)]

ghost use Rattle.std.specs.Prelude.{◌≡◌};
ghost use Rattle.bucket_clock_model.specs.Desk.{no_work};

use strip::{Answer, Element, Request};

// How many records there are: one behind each storey, and there are at most three.
// They stand in an array, with the storeys beside it: the card has no heap.
pub const RECORDS: usize = 3;

// A pending record: the operation that waits behind a stage, and the way that it has found, the digits as one number.
#[derive(Clone, Copy)]
pub struct Waiting {
    pub does: Request,
    pub way: u32,
}

// Nothing pending.
pub fn no_work() -> Waiting
    ensures { result ≡ no_work }
{
    Waiting {
        does: Request::Idle,
        way: 0,
    }
}

// What a cycle answers: done or a refusal; what leaves in it; and the records that it leaves, that behind the top storey first.
#[derive(Clone, Copy)]
pub struct BucketCycled {
    pub answer: Answer,
    pub leaves: Option<Element>,
    pub records: [Waiting; RECORDS],
}
