// The vectors of a line as frontiers of R desks.
use clocks::causal_frontier::CausalFrontier;
use clocks::refusal::Refusal;
use clocks::replica::ReplicaIdx;
use probe_text::arguments::{Arguments, Sides, Vector};

// The vector, or 3.
pub fn frontier(r: usize, vector: Vector) -> Result<CausalFrontier, Refusal> {
    CausalFrontier::from_entries(r, vector.entries())
}

// A desk and the vector behind it.
pub fn placed(r: usize, arguments: Arguments) -> Result<(ReplicaIdx, CausalFrontier), Refusal> {
    let (idx, vector) = arguments.all()?;
    Ok((idx, frontier(r, vector)?))
}

// The vectors on both sides of the bar. What the first is refused for comes before the second.
pub fn both(r: usize, arguments: Arguments) -> Result<(CausalFrontier, CausalFrontier), Refusal> {
    let Sides { left, right } = arguments.all()?;
    Ok((frontier(r, left)?, frontier(r, right)?))
}
