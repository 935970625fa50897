// The listing program's commands and answers: lines read into commands, and answers and the sheet written. Document 01, The listing program.
#![tactic(auto)]

pub mod answer;
pub mod command;
mod fields;
pub mod sheet;
pub mod why;
