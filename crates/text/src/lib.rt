// Text: bytes in lent buffers, numbers read and written, and lines that arrive in pieces. Document 01, The listing program, has the line rules.
#![tactic(auto)]

pub mod buffer;
pub mod bytes;
pub mod lines;
pub mod number;
