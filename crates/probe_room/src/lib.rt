// The words of the waiting room: each makes one call of `room`. The tables are lent to each word, and changed in place.
#![tactic(auto)]

mod arrivals;
mod lists;

use clocks::refusal::Refusal;
use history::event_history::EventHistory;
use probe_history::Tables;
use probe_text::answers::{Answer, Output};
use probe_text::arguments::Arguments;
use probe_text::line::Line;
use room::Rows;
use room::waiting_room::WaitingRoom;

// One line. Before a good h.new no word has an answer.
pub fn answer(
    history: &mut Option<EventHistory>,
    waiting: &mut WaitingRoom,
    room: usize,
    line: Line,
    out: &mut Output,
    rows: &mut Rows,
    tables: &mut Tables,
) {
    let Some(history) = history else {
        return out.told(Err(Refusal::BadLine), false);
    };
    match line.word {
        b"r.arrive" => arrivals::told(history, waiting, line.arguments, out, rows, tables),
        b"r.waiting" => lists::told(waiting, line.arguments, room, out, rows),
        b"r.len" => out.told(len(waiting, line.arguments), false),
        _ => out.told(Err(Refusal::BadLine), false),
    }
}

// `r.len`
fn len(waiting: &WaitingRoom, arguments: Arguments) -> Result<Answer, Refusal> {
    arguments.end()?;
    Ok(Answer::Number(waiting.len()))
}
