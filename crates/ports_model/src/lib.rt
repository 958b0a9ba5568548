// Several ports on one pool: their types. Their rules are in specs/, what follows from them in proofs/.
#![tactic(auto)]

// The numbers of a pool: how many storeys of bits each port has, how many nodes there are, and how many ports.
#[derive(Clone, Copy)]
pub struct Shape {
    pub storeys: usize,
    pub nodes: u32,
    pub ports: u32,
}
