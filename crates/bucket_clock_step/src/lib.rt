// The stages of the clocked bucket queue, on lent words: a storey of bits with its counts (`storey`), the buckets (`buckets`), and all of them in one
// cycle (`stages`). A stage's tests and its work are functions of their own, so that every stage is tested before the first word is written.
#![tactic(auto)]

pub mod buckets;
pub mod stages;
pub mod storey;
