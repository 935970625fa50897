// What the words of the line driver share: a line as a word and its arguments, answer lines, and the buffers that list calls are lent.
#![tactic(auto)]

pub mod answers;
pub mod arguments;
pub mod lent;
pub mod line;
