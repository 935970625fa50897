// The graph words of the line driver: each makes one call of `graph`. The tables are lent to each word, and changed in place.
#![tactic(auto)]

mod asks;
mod changes;
mod lists;

use changes::Change;
use clocks::refusal::Refusal;
use graph::{EventGraph, Pasts, Slots};
use lists::{List, Listing};
use probe_text::answers::{Answer, Output};
use probe_text::arguments::{Arguments, Vector};
use probe_text::lent::{digest, listed};
use probe_text::line::Line;

// The tables of a graph.
#[derive(Drop)]
pub struct Tables<'a> {
    pub slots: &'a mut Slots,
    pub pasts: &'a mut Pasts,
}

// A number that tells two contents of the tables apart.
fn tables_digest(tables: &Tables) -> u64 {
    digest(tables.slots) ^ (digest(tables.pasts) << 6)
}

// One line. Before a good g.new or g.from there is no graph, and no word but those has an answer.
pub fn answer(
    graph: &mut Option<EventGraph>,
    room: usize,
    line: Line,
    out: &mut Output,
    tables: &mut Tables,
) {
    match line.word {
        b"g.new" => out.told(begun(fresh(line.arguments), graph, tables), false),
        b"g.from" => out.told(begun(restored(line.arguments), graph, tables), false),
        _ => match graph {
            Some(graph) => of_made(graph, room, line, out, tables),
            None => out.told(Err(Refusal::BadLine), false),
        },
    }
}

// `g.new R`
fn fresh(arguments: Arguments) -> Result<EventGraph, Refusal> {
    EventGraph::new(arguments.all()?)
}

// `g.from R V`
fn restored(arguments: Arguments) -> Result<EventGraph, Refusal> {
    let (r, vector): (usize, Vector) = arguments.all()?;
    EventGraph::from_checkpoint(r, vector.entries())
}

// A new log, whose tables are zeros, or the refusal and the log that was there.
fn begun(
    made: Result<EventGraph, Refusal>,
    graph: &mut Option<EventGraph>,
    tables: &mut Tables,
) -> Result<Answer, Refusal> {
    *graph = Some(made?);
    for column in tables.slots.iter_mut() {
        column.fill(0);
    }
    tables.pasts.fill(0);
    Ok(Answer::Nothing)
}

// What is neither a change nor a list is asked, and where it is no question either, it is no line.
fn of_made(graph: &mut EventGraph, room: usize, line: Line, out: &mut Output, tables: &mut Tables) {
    if let Ok(change) = Change::read(line) {
        return changed(change, graph, out, tables);
    }
    if let Ok(list) = List::read(line) {
        let listing = Listing {
            list,
            graph,
            tables,
        };
        return listed(&listing, room, out);
    }
    out.told(asks::asked(graph, line, tables), false)
}

// The words that change the graph. Where one is refused, or flushes nothing, the graph and its tables are to be as they were.
fn changed(change: Change, graph: &mut EventGraph, out: &mut Output, tables: &mut Tables) {
    let old = *graph;
    let before = tables_digest(tables);
    let answer = change.called(graph, tables);
    let same = is_same(&old, graph) && tables_digest(tables) == before;
    let stays = matches!(answer, Err(_) | Ok(Answer::Absent));
    out.told(answer, stays && !same)
}

// Whether two graphs tell the same number of events, the same named and the same roots.
fn is_same(a: &EventGraph, b: &EventGraph) -> bool {
    a.len() == b.len() && a.named() == b.named() && a.roots() == b.roots()
}
