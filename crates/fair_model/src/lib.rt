// What weighted fair ranks take in and answer. The rules are in specs/, the theorems in proofs/.
#![tactic(auto)]

ghost use Rattle.std.specs.Prelude.{◌≡◌};
ghost use Rattle.fair_model.specs.Calls.{fair_number};
ghost use Rattle.fair_model.specs.declared.FairRefusal.TheVariants.{Queue};

use strip::{Element, Refusal};

// Which flow a strip is of.
#[derive(Clone, Copy)]
pub struct Flow(pub u32);

// The share that a strip asks for its flow.
#[derive(Clone, Copy)]
pub struct Weight(pub u32);

// Why fair ranks say no: what they refuse themselves, and what their queue refuses.
#[derive(Clone, Copy)]
pub enum FairRefusal {
    BadStrip,
    ClockSpent,
    NotEmpty,
    Queue(Refusal),
}

impl From<Refusal> for FairRefusal {
    ghost from_gives = { λ r q. q ≡ Queue r };

    fn from(r: Refusal) -> FairRefusal {
        FairRefusal::Queue(r)
    }
}

// 9, 10 and 11, and the queue's own.
impl From<FairRefusal> for u32 {
    ghost from_gives = { λ r n. n ≡ fair_number r };

    fn from(r: FairRefusal) -> u32 {
        match r {
            FairRefusal::BadStrip => 9,
            FairRefusal::ClockSpent => 10,
            FairRefusal::NotEmpty => 11,
            FairRefusal::Queue(q) => u32::from(q),
        }
    }
}

// What a call answers: that it is accepted, with the element where one is served, or a refusal.
pub type FairAnswer = Result<Option<Element>, FairRefusal>;
