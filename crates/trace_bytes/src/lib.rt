// A trace's bytes: its header and records as they are read, its lines as they are written.
#![tactic(auto)]

pub mod lines;
pub mod records;
