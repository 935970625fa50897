// The history words that change a history. A line is read whole before the history and its tables are looked at.
use crate::Tables;
use clocks::event::Event;
use clocks::id::EventId;
use clocks::refusal::Refusal;
use history::event_history::EventHistory;
use probe_text::answers::Answer;
use probe_text::arguments::{MOST_MASK, Mask, Vector};
use probe_text::line::Line;

// A change with what stands behind its word.
#[derive(Clone, Copy, Debug, PartialEq, Eq)]
pub enum Change<'a> {
    // `h.append ID L P R V`
    Append(Event, Vector),
    // `h.prune V`
    Prune(Vector),
    // `h.remove ID`
    Remove(EventId),
    // `h.retain M`
    Retain(Mask<'a>),
    // `h.raise R`
    Raise(usize),
    // `h.clear`
    Clear,
}

impl<'a> Change<'a> {
    // The change that a line asks for; a line of another word is none.
    pub fn read(line: Line<'a>) -> Result<Change<'a>, Refusal> {
        let arguments = line.arguments;
        match line.word {
            b"h.append" => {
                let (event, version) = arguments.all()?;
                Ok(Change::Append(event, version))
            }
            b"h.prune" => Ok(Change::Prune(arguments.all()?)),
            b"h.remove" => Ok(Change::Remove(arguments.all()?)),
            b"h.retain" => Ok(Change::Retain(arguments.mask()?)),
            b"h.raise" => Ok(Change::Raise(arguments.all()?)),
            b"h.clear" => {
                arguments.end()?;
                Ok(Change::Clear)
            }
            _ => Err(Refusal::BadLine),
        }
    }

    pub fn called(
        self,
        history: &mut EventHistory,
        tables: &mut Tables,
    ) -> Result<Answer, Refusal> {
        match self {
            Change::Append(event, version) => append(event, version, history, tables),
            Change::Prune(frontier) => prune(frontier, history, tables),
            Change::Remove(id) => Ok(remove(id, history, tables)),
            Change::Retain(mask) => retain(mask, history, tables),
            Change::Raise(r) => raise(r, history),
            Change::Clear => Ok(Answer::Number(history.clear())),
        }
    }
}

fn append(
    event: Event,
    version: Vector,
    history: &mut EventHistory,
    tables: &mut Tables,
) -> Result<Answer, Refusal> {
    history.append(
        event,
        version.entries(),
        tables.index,
        tables.versions,
        tables.notes,
        tables.boundaries,
    )?;
    Ok(Answer::Nothing)
}

fn prune(
    frontier: Vector,
    history: &mut EventHistory,
    tables: &mut Tables,
) -> Result<Answer, Refusal> {
    let count = history.prune_predecessors(
        frontier.entries(),
        tables.index,
        tables.versions,
        tables.boundaries,
    )?;
    Ok(Answer::Number(count))
}

fn remove(id: EventId, history: &mut EventHistory, tables: &mut Tables) -> Answer {
    Answer::Number(history.remove(id, tables.index, tables.versions, tables.boundaries))
}

fn retain(mask: Mask, history: &mut EventHistory, tables: &mut Tables) -> Result<Answer, Refusal> {
    let mut bytes = [0; MOST_MASK];
    let keep = mask.bytes(&mut bytes);
    let count = history.retain(keep, tables.index, tables.versions, tables.boundaries)?;
    Ok(Answer::Number(count))
}

fn raise(r: usize, history: &mut EventHistory) -> Result<Answer, Refusal> {
    history.raise(r)?;
    Ok(Answer::Nothing)
}
