// The trace program's types. Its definition, from input to output bytes, is in specs/, what follows from it in proofs/.
#![tactic(auto)]

use tree_clock_model::State;

// The version of a trace: its records are without a length, or with one.
#[derive(Clone, Copy)]
pub enum Version {
    One,
    Two,
}

// What a trace's first bytes say, where they are a header.
#[derive(Clone, Copy)]
pub struct Header {
    pub version: Version,
    pub order: usize,
    pub levels: usize,
}

// What is carried from piece to piece: the version, the shape, the machine's state, how many records were played, and whether the play
// goes on. It is no Option: `begin` and `play` promise all of a play that has ended too (`Makes`).
#[derive(Clone, Copy)]
pub struct Playing {
    pub version: Version,
    pub order: usize,
    pub levels: usize,
    pub state: State,
    pub number: u64,
    pub live: bool,
}

// .. and how many bytes of text a call has put into its buffer.
#[derive(Clone, Copy)]
pub struct Piece {
    pub play: Playing,
    pub written: usize,
}
