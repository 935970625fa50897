// The clock words of the line driver: each makes one call of `clocks`.
#![tactic(auto)]

mod asks;
mod dependencies;
mod vectors;

use clocks::causal_frontier::CausalFrontier;
use clocks::refusal::Refusal;
use probe_text::answers::{Answer, Output};
use probe_text::arguments::Arguments;
use probe_text::line::Line;

// One line. Before a good c.replicas there is no R, and no word but that one has an answer.
pub fn answer(replicas: &mut Option<usize>, room: usize, line: Line, out: &mut Output) {
    match line.word {
        b"c.replicas" => out.told(counted(replicas, line.arguments), false),
        b"c.dependencies" => dependencies::listed(*replicas, room, line.arguments, out),
        _ => out.told(asks::asked(*replicas, line), false),
    }
}

// `c.replicas R`
fn counted(replicas: &mut Option<usize>, arguments: Arguments) -> Result<Answer, Refusal> {
    let r = arguments.all()?;
    CausalFrontier::new(r)?;
    *replicas = Some(r);
    Ok(Answer::Nothing)
}
