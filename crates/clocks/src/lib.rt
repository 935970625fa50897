// The clocks and ids under the log: Moirai's clock/version_vector.rs, clock/causal_frontier.rs, event/id.rs, event/mod.rs and
// event/tagged_op.rs, with the replica index and document 01's refusal numbers.
#![tactic(auto)]

pub mod causal_frontier;
pub mod event;
pub mod id;
pub mod refusal;
pub mod replica;
pub mod tagged_op;
pub mod vector;
pub mod version_vector;
