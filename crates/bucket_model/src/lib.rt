// The bucket queue's types. Its rules are in specs/, what follows from them in proofs/.
#![tactic(auto)]

// Where the words of a bucket queue stand. Of the words of 64 bits: how many storeys there are, how many words they have,
// and where they begin. Of the words of 32 bits: how many ranks there are, and where the heads begin, one for each rank,
// with as many tails behind them; where the node that link 0 would name would begin; where the free link and the held
// count stand. And how many nodes there are.
#[derive(Clone, Copy)]
pub struct Lay {
    pub storeys: usize,
    pub tower: usize,
    pub bits: usize,
    pub ranks: u32,
    pub heads: usize,
    pub stem: usize,
    pub nodes: u32,
    pub free: usize,
    pub held: usize,
}

// The bucket that a pop takes from: its rank, and the links read. next is its head's.
#[derive(Clone, Copy)]
pub struct Bucket {
    pub rank: u32,
    pub head: u32,
    pub tail: u32,
    pub next: u32,
}

// What a push reads: how many nodes of the pool are in use; whether its rank's bits agree with what is below them; its bucket's head and tail,
// and what stands behind the tail; the free link, and the next of the node that it names.
#[derive(Clone, Copy)]
pub struct Reads {
    pub held: u32,
    pub agrees: bool,
    pub head: u32,
    pub tail: u32,
    pub behind: u32,
    pub free: u32,
    pub next: u32,
}

// The bucket that a push joins: its tail, and the next of the node taken.
#[derive(Clone, Copy)]
pub struct Spot {
    pub tail: u32,
    pub next: u32,
}
