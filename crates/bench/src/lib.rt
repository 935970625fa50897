// The port's side of the benchmark, for a program of Rust to link: oracle/bench is the other side, and the parameters of each `port_` function are what it hands
// over. Rounds are counted by a number: no slice is walked.
#![tactic(auto)]

pub mod changes;
pub mod graphs;
pub mod histories;
mod rows;
