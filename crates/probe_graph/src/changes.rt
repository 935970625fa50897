// The graph words that change a graph. A line is read whole before the graph and its tables are looked at.
use crate::Tables;
use clocks::event::Event;
use clocks::id::EventId;
use clocks::refusal::Refusal;
use graph::EventGraph;
use probe_text::answers::Answer;
use probe_text::arguments::{MOST_MASK, Mask, Vector};
use probe_text::line::Line;

// A change with what stands behind its word.
#[derive(Clone, Copy, Debug, PartialEq, Eq)]
pub enum Change<'a> {
    // `g.append ID L P R V`
    Append(Event, Vector),
    // `g.flush V`
    Flush(Vector),
    // `g.advance V`
    Advance(Vector),
    // `g.remove ID`
    Remove(EventId),
    // `g.retain M`
    Retain(Mask<'a>),
    // `g.raise R`
    Raise(usize),
    // `g.clear`
    Clear,
}

impl<'a> Change<'a> {
    // The change that a line asks for; a line of another word is none.
    pub fn read(line: Line<'a>) -> Result<Change<'a>, Refusal> {
        let arguments = line.arguments;
        match line.word {
            b"g.append" => {
                let (event, version) = arguments.all()?;
                Ok(Change::Append(event, version))
            }
            b"g.flush" => Ok(Change::Flush(arguments.all()?)),
            b"g.advance" => Ok(Change::Advance(arguments.all()?)),
            b"g.remove" => Ok(Change::Remove(arguments.all()?)),
            b"g.retain" => Ok(Change::Retain(arguments.mask()?)),
            b"g.raise" => Ok(Change::Raise(arguments.all()?)),
            b"g.clear" => {
                arguments.end()?;
                Ok(Change::Clear)
            }
            _ => Err(Refusal::BadLine),
        }
    }

    pub fn called(self, graph: &mut EventGraph, tables: &mut Tables) -> Result<Answer, Refusal> {
        match self {
            Change::Append(event, version) => append(event, version, graph, tables),
            Change::Flush(frontier) => flush(frontier, graph, tables),
            Change::Advance(bound) => advance(bound, graph, tables),
            Change::Remove(id) => Ok(remove(id, graph, tables)),
            Change::Retain(mask) => retain(mask, graph, tables),
            Change::Raise(r) => raise(r, graph),
            Change::Clear => Ok(clear(graph, tables)),
        }
    }
}

fn append(
    event: Event,
    version: Vector,
    graph: &mut EventGraph,
    tables: &mut Tables,
) -> Result<Answer, Refusal> {
    graph.append(event, version.entries(), tables.slots, tables.pasts)?;
    Ok(Answer::Nothing)
}

fn flush(frontier: Vector, graph: &mut EventGraph, tables: &mut Tables) -> Result<Answer, Refusal> {
    let count = graph.prune_predecessors(frontier.entries(), tables.slots, tables.pasts)?;
    Ok(Answer::Number(count))
}

// The frontier that was flushed and how many went, or that there was none.
fn advance(bound: Vector, graph: &mut EventGraph, tables: &mut Tables) -> Result<Answer, Refusal> {
    let flushed = graph.advance(bound.entries(), tables.slots, tables.pasts)?;
    Ok(flushed.map_or(Answer::Absent, |a| {
        Answer::Counted(Vector::from(a.frontier), a.count)
    }))
}

fn remove(id: EventId, graph: &mut EventGraph, tables: &mut Tables) -> Answer {
    Answer::Number(graph.remove(id, tables.slots, tables.pasts))
}

fn retain(mask: Mask, graph: &mut EventGraph, tables: &mut Tables) -> Result<Answer, Refusal> {
    let mut bytes = [0; MOST_MASK];
    let keep = mask.bytes(&mut bytes);
    let count = graph.retain(keep, tables.slots, tables.pasts)?;
    Ok(Answer::Number(count))
}

fn raise(r: usize, graph: &mut EventGraph) -> Result<Answer, Refusal> {
    graph.raise(r)?;
    Ok(Answer::Nothing)
}

fn clear(graph: &mut EventGraph, tables: &mut Tables) -> Answer {
    Answer::Number(graph.clear(tables.slots, tables.pasts))
}
