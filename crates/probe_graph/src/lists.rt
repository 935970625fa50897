// The graph words that list. A list is of positions, and each is told as its event, or of lengths, which are told as they are. A line is read whole before the buffer is filled.
use crate::Tables;
use clocks::id::EventId;
use clocks::refusal::Refusal;
use clocks::replica::ReplicaIdx;
use graph::EventGraph;
use positions::NodeIndex;
use probe_text::answers::Answer;
use probe_text::arguments::Vector;
use probe_text::lent::ListCall;
use probe_text::line::Line;

// A list with what stands behind its word.
#[derive(Clone, Copy, Debug, PartialEq, Eq)]
pub enum List {
    // `g.parents ID`
    Parents(EventId),
    // `g.cuts`
    Cuts,
    // `g.chain L`
    Chain(usize),
    // `g.heads`
    Heads,
    // `g.iter`
    Iter,
    // `g.predecessors V`
    Predecessors(Vector),
    // `g.concurrent V`
    Concurrent(Vector),
    // `g.replica-events O A B`
    ReplicaEvents(ReplicaIdx, usize, usize),
}

impl List {
    // The list that a line asks for; a line of another word is none.
    pub fn read(line: Line) -> Result<List, Refusal> {
        let arguments = line.arguments;
        match line.word {
            b"g.parents" => Ok(List::Parents(arguments.all()?)),
            b"g.chain" => Ok(List::Chain(arguments.all()?)),
            b"g.predecessors" => Ok(List::Predecessors(arguments.all()?)),
            b"g.concurrent" => Ok(List::Concurrent(arguments.all()?)),
            b"g.replica-events" => {
                let (origin, start, end) = arguments.all()?;
                Ok(List::ReplicaEvents(origin, start, end))
            }
            _ => List::of_whole(line),
        }
    }

    // The words with nothing behind them.
    fn of_whole(line: Line) -> Result<List, Refusal> {
        line.arguments.end()?;
        match line.word {
            b"g.cuts" => Ok(List::Cuts),
            b"g.heads" => Ok(List::Heads),
            b"g.iter" => Ok(List::Iter),
            _ => Err(Refusal::BadLine),
        }
    }
}

// A list of a graph.
#[derive(Clone, Copy)]
pub struct Listing<'a> {
    pub list: List,
    pub graph: &'a EventGraph,
    pub tables: &'a Tables<'a>,
}

impl ListCall for Listing<'_> {
    fn call(&self, list: &mut [usize]) -> Result<usize, Refusal> {
        let Tables { slots, pasts } = self.tables;
        match self.list {
            List::Parents(id) => self.graph.direct_predecessors(id, slots, pasts, list),
            List::Chain(length) => self.graph.chain(NodeIndex(length), pasts, list),
            List::Predecessors(version) => {
                self.graph.predecessors(version.entries(), slots, list)
            }
            List::Concurrent(version) => self.graph.concurrent(version.entries(), slots, list),
            List::ReplicaEvents(origin, start, end) => {
                self.graph.replica_events(origin, start, end, slots, list)
            }
            List::Cuts => self.graph.cuts(list),
            List::Heads => self.graph.frontier(pasts, list),
            List::Iter => self.graph.iter(list),
        }
    }

    // Where a position holds nothing the answer shows nothing.
    fn entry(&self, k: usize) -> Answer {
        let Tables { slots, .. } = self.tables;
        let event = || self.graph.event_at(NodeIndex(k), slots);
        match self.list {
            List::Cuts | List::Chain(_) => Answer::Number(k),
            List::Parents(_) => event().map_or(Answer::Nothing, |op| Answer::Id(op.id())),
            _ => event().map_or(Answer::Nothing, Answer::Event),
        }
    }
}
