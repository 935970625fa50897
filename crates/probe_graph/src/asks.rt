// The graph words that answer one value or one vector.
use crate::Tables;
use clocks::refusal::Refusal;
use graph::EventGraph;
use graph::why::Lack;
use probe_text::answers::Answer;
use probe_text::arguments::{Arguments, Vector};
use probe_text::line::Line;

pub fn asked(graph: &EventGraph, line: Line, tables: &Tables) -> Result<Answer, Refusal> {
    let arguments = line.arguments;
    match line.word {
        b"g.get" => get(graph, arguments, tables),
        b"g.order" => order(graph, arguments, tables),
        b"g.is-critical" => is_critical(graph, arguments, tables),
        b"g.greatest" => greatest(graph, arguments, tables),
        b"g.seen" => seen(graph, arguments),
        b"g.why" => why(graph, arguments, tables),
        _ => of_whole(graph, line),
    }
}

// The words with nothing behind them.
fn of_whole(graph: &EventGraph, line: Line) -> Result<Answer, Refusal> {
    line.arguments.end()?;
    match line.word {
        b"g.len" => Ok(Answer::Number(graph.len())),
        b"g.is-empty" => Ok(Answer::from(graph.is_empty())),
        b"g.roots" => Ok(Answer::from(graph.roots())),
        b"g.named" => Ok(Answer::from(graph.named())),
        _ => Err(Refusal::BadLine),
    }
}

// `g.get ID`
fn get(graph: &EventGraph, arguments: Arguments, tables: &Tables) -> Result<Answer, Refusal> {
    let id = arguments.all()?;
    Ok(Answer::from(graph.get(id, tables.slots)))
}

// `g.order ID`
fn order(graph: &EventGraph, arguments: Arguments, tables: &Tables) -> Result<Answer, Refusal> {
    let id = arguments.all()?;
    let place = graph.delivery_order(id, tables.slots);
    Ok(place.map_or(Answer::Absent, |i| Answer::Number(i.0)))
}

// `g.is-critical V`
fn is_critical(
    graph: &EventGraph,
    arguments: Arguments,
    tables: &Tables,
) -> Result<Answer, Refusal> {
    let frontier: Vector = arguments.all()?;
    let critical = graph.is_critical(frontier.entries(), tables.slots)?;
    Ok(Answer::from(critical))
}

// `g.greatest V`
fn greatest(graph: &EventGraph, arguments: Arguments, tables: &Tables) -> Result<Answer, Refusal> {
    let bound: Vector = arguments.all()?;
    let greatest = graph.greatest_critical_frontier(bound.entries(), tables.slots)?;
    Ok(Answer::from(greatest))
}

// `g.seen V`
fn seen(graph: &EventGraph, arguments: Arguments) -> Result<Answer, Refusal> {
    let version: Vector = arguments.all()?;
    let seen = graph.seen_all(version.entries())?;
    Ok(Answer::from(seen))
}

// `g.why L`: a cut, or two ids, the later first.
fn why(graph: &EventGraph, arguments: Arguments, tables: &Tables) -> Result<Answer, Refusal> {
    let length = arguments.all()?;
    Ok(match graph.why(length, tables.pasts)? {
        Some(lack) => lacking(graph, lack, tables).unwrap_or(Answer::Absent),
        None => Answer::Cut,
    })
}

fn lacking(graph: &EventGraph, lack: Lack, tables: &Tables) -> Option<Answer> {
    let later = graph.event_at(lack.later, tables.slots)?;
    let earlier = graph.event_at(lack.earlier, tables.slots)?;
    Some(Answer::Ids(later.id(), earlier.id()))
}
