// The history words that answer one value or one vector.
use crate::Tables;
use clocks::id::EventId;
use clocks::refusal::Refusal;
use clocks::replica::ReplicaIdx;
use history::event_history::{EventHistory, FirstObserver};
use probe_text::answers::Answer;
use probe_text::arguments::{Arguments, Vector};
use probe_text::line::Line;

pub fn asked(history: &EventHistory, line: Line, tables: &Tables) -> Result<Answer, Refusal> {
    let arguments = line.arguments;
    match line.word {
        b"h.get" => get(history, arguments, tables),
        b"h.previous" => previous(history, arguments, tables),
        b"h.next" => next(history, arguments, tables),
        b"h.first" => first(history, arguments, tables),
        b"h.version" => version(history, arguments, tables),
        b"h.last-version" => last_version(history, arguments, tables),
        b"h.len" => len(history, arguments),
        b"h.is-empty" => is_empty(history, arguments),
        _ => Err(Refusal::BadLine),
    }
}

// An id and a desk.
fn placed(arguments: Arguments) -> Result<(EventId, ReplicaIdx), Refusal> {
    arguments.all()
}

// `h.get ID`
fn get(history: &EventHistory, arguments: Arguments, tables: &Tables) -> Result<Answer, Refusal> {
    let id = arguments.all()?;
    Ok(Answer::from(history.get(id, tables.index, tables.notes)))
}

// `h.previous ID O`
fn previous(
    history: &EventHistory,
    arguments: Arguments,
    tables: &Tables,
) -> Result<Answer, Refusal> {
    let (id, r) = placed(arguments)?;
    let found = history.previous(id, r, tables.index, tables.notes, tables.versions);
    Ok(Answer::from(found))
}

// `h.next ID O`
fn next(history: &EventHistory, arguments: Arguments, tables: &Tables) -> Result<Answer, Refusal> {
    let (id, r) = placed(arguments)?;
    let found = history.next(id, r, tables.index, tables.versions, tables.notes);
    Ok(Answer::from(found))
}

// `h.first ID O`
fn first(history: &EventHistory, arguments: Arguments, tables: &Tables) -> Result<Answer, Refusal> {
    let (id, r) = placed(arguments)?;
    let first = history.first_observer(
        id,
        r,
        tables.index,
        tables.versions,
        tables.notes,
        tables.boundaries,
    );
    Ok(match first {
        FirstObserver::Event(op) => Answer::Event(op),
        FirstObserver::NoneYet => Answer::Absent,
        FirstObserver::Pruned => Answer::Pruned,
    })
}

// `h.version ID`
fn version(
    history: &EventHistory,
    arguments: Arguments,
    tables: &Tables,
) -> Result<Answer, Refusal> {
    let id = arguments.all()?;
    let row = history.version(id, tables.index, tables.notes, tables.versions);
    Ok(Answer::Vector(Vector::from(row)))
}

// `h.last-version O`
fn last_version(
    history: &EventHistory,
    arguments: Arguments,
    tables: &Tables,
) -> Result<Answer, Refusal> {
    let r = arguments.all()?;
    let row = history.last_version(r, tables.index, tables.versions, tables.boundaries);
    Ok(Answer::Vector(Vector::from(row)))
}

// `h.len`
fn len(history: &EventHistory, arguments: Arguments) -> Result<Answer, Refusal> {
    arguments.end()?;
    Ok(Answer::Number(history.len()))
}

// `h.is-empty`
fn is_empty(history: &EventHistory, arguments: Arguments) -> Result<Answer, Refusal> {
    arguments.end()?;
    Ok(Answer::from(history.is_empty()))
}
