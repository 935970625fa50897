// The history words of the line driver: each makes one call of `history`. The tables are lent to each word, and changed in place.
#![tactic(auto)]

mod asks;
mod changes;
mod lists;

use changes::Change;
use clocks::refusal::Refusal;
use clocks::vector::Seq;
use history::event_history::EventHistory;
use history::{Index, Notes};
use lists::{List, Listing};
use probe_text::answers::{Answer, Output};
use probe_text::arguments::Arguments;
use probe_text::lent::{digest, listed};
use probe_text::line::Line;

// The tables of a history.
#[derive(Drop)]
pub struct Tables<'a> {
    pub index: &'a mut Index,
    pub versions: &'a mut [Seq; 8192],
    pub notes: &'a mut Notes,
    pub boundaries: &'a mut [Seq; 256],
}

// A number that tells two contents of the tables apart.
pub fn tables_digest(tables: &Tables) -> u64 {
    digest(tables.versions)
        ^ (digest(tables.notes) << 1)
        ^ (digest(tables.boundaries) << 2)
        ^ (digest(tables.index) << 3)
}

// One line, and whether it made a history. Before a good h.new there is none, and no word but that one has an answer.
pub fn answer(
    history: &mut Option<EventHistory>,
    room: usize,
    line: Line,
    out: &mut Output,
    tables: &mut Tables,
) -> bool {
    if let b"h.new" = line.word {
        let made = created(history, line.arguments);
        out.told(made, false);
        return made.is_ok();
    }
    match history {
        Some(history) => of_made(history, room, line, out, tables),
        None => out.told(Err(Refusal::BadLine), false),
    }
    false
}

// `h.new R`
fn created(history: &mut Option<EventHistory>, arguments: Arguments) -> Result<Answer, Refusal> {
    *history = Some(EventHistory::new(arguments.all()?)?);
    Ok(Answer::Nothing)
}

// What is neither a change nor a list is asked, and where it is no question either, it is no line.
fn of_made(
    history: &mut EventHistory,
    room: usize,
    line: Line,
    out: &mut Output,
    tables: &mut Tables,
) {
    if let Ok(change) = Change::read(line) {
        return changed(change, history, out, tables);
    }
    if let Ok(list) = List::read(line) {
        let listing = Listing {
            list,
            history,
            tables,
        };
        return listed(&listing, room, out);
    }
    out.told(asks::asked(history, line, tables), false)
}

// The words that change the history. Where one is refused, the history is to hold as many events and the tables are to be as they were.
fn changed(change: Change, history: &mut EventHistory, out: &mut Output, tables: &mut Tables) {
    let len = history.len();
    let before = tables_digest(tables);
    let answer = change.called(history, tables);
    let same = history.len() == len && tables_digest(tables) == before;
    out.told(answer, answer.is_err() && !same)
}
