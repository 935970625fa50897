// `r.arrive ID L P R V`. Where it is refused, every table is to be as it was.
use clocks::event::Event;
use clocks::refusal::Refusal;
use history::event_history::EventHistory;
use probe_history::{Tables, tables_digest};
use probe_text::answers::{Answer, Output};
use probe_text::arguments::{Arguments, Vector};
use probe_text::lent::digest;
use room::waiting_room::{WaitingRoom, line_at};
use room::{Report, Rows};

// A number that tells two contents of all tables of a history and its room apart.
fn whole_digest(rows: &Rows, tables: &Tables) -> u64 {
    tables_digest(tables) ^ (digest(rows) << 4)
}

// The line is read whole before the tables are looked at.
pub fn told(
    history: &mut EventHistory,
    waiting: &mut WaitingRoom,
    arguments: Arguments,
    out: &mut Output,
    rows: &mut Rows,
    tables: &mut Tables,
) {
    match arguments.all() {
        Ok((event, version)) => arrival(history, waiting, event, version, out, rows, tables),
        Err(refusal) => out.told(Err(refusal), false),
    }
}

// The number, and the lines of the report.
fn arrival(
    history: &mut EventHistory,
    waiting: &mut WaitingRoom,
    event: Event,
    version: Vector,
    out: &mut Output,
    rows: &mut Rows,
    tables: &mut Tables,
) {
    let mut report = [[0; 4]; 65];
    let lens = (history.len(), waiting.len());
    let before = whole_digest(rows, tables);
    let count = arrived(history, waiting, event, version, &mut report, rows, tables);
    let same = (history.len(), waiting.len()) == lens && whole_digest(rows, tables) == before;
    out.begun(count);
    lines(&report, count.unwrap_or(0), out);
    out.ended(count.is_err() && !same);
}

// How many lines were told.
fn arrived(
    history: &mut EventHistory,
    waiting: &mut WaitingRoom,
    event: Event,
    version: Vector,
    report: &mut Report,
    rows: &mut Rows,
    tables: &mut Tables,
) -> Result<usize, Refusal> {
    waiting.arrive(
        history,
        event,
        version.entries(),
        rows,
        report,
        tables.index,
        tables.versions,
        tables.notes,
        tables.boundaries,
    )
}

// Each id after a space, and its number after a slash.
fn lines(report: &Report, count: usize, out: &mut Output) {
    // Lines are read by their place, as the room hands them out.
    for i in 0..count.min(report.len()) {
        let line = line_at(report, i);
        out.answer(Answer::Id(line.id));
        out.slashed(line.number);
    }
}
