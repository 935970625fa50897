// The name is that of Moirai's `replica` module.

// A desk's number, 0 to R-1. A position in a log is another type.
#[derive(Clone, Copy, Debug, PartialEq, Eq, PartialOrd, Ord)]
pub struct ReplicaIdx(pub usize);
