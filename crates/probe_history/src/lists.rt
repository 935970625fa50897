// The history words that list. A list is of rows, and each is told as its event. A line is read whole before the buffer is filled.
use crate::Tables;
use clocks::id::EventId;
use clocks::refusal::Refusal;
use clocks::replica::ReplicaIdx;
use history::event_history::EventHistory;
use probe_text::answers::Answer;
use probe_text::arguments::Vector;
use probe_text::lent::ListCall;
use probe_text::line::Line;

// A list with what stands behind its word.
#[derive(Clone, Copy, Debug, PartialEq, Eq)]
pub enum List {
    // `h.predecessors V`
    Predecessors(Vector),
    // `h.concurrent V`
    Concurrent(Vector),
    // `h.iter`
    Iter,
    // `h.newly ID`
    Newly(EventId),
    // `h.replica-events O A B`
    ReplicaEvents(ReplicaIdx, usize, usize),
}

impl List {
    // The list that a line asks for; a line of another word is none.
    pub fn read(line: Line) -> Result<List, Refusal> {
        let arguments = line.arguments;
        match line.word {
            b"h.predecessors" => Ok(List::Predecessors(arguments.all()?)),
            b"h.concurrent" => Ok(List::Concurrent(arguments.all()?)),
            b"h.iter" => {
                arguments.end()?;
                Ok(List::Iter)
            }
            b"h.newly" => Ok(List::Newly(arguments.all()?)),
            b"h.replica-events" => {
                let (origin, from, to) = arguments.all()?;
                Ok(List::ReplicaEvents(origin, from, to))
            }
            _ => Err(Refusal::BadLine),
        }
    }
}

// A list of a history.
#[derive(Clone, Copy)]
pub struct Listing<'a> {
    pub list: List,
    pub history: &'a EventHistory,
    pub tables: &'a Tables<'a>,
}

impl ListCall for Listing<'_> {
    fn call(&self, list: &mut [usize]) -> Result<usize, Refusal> {
        let Tables {
            index,
            versions,
            notes,
            boundaries,
        } = self.tables;
        match self.list {
            List::Predecessors(version) => {
                self.history.predecessors(version.entries(), index, list)
            }
            List::Concurrent(version) => self.history.concurrent(version.entries(), index, list),
            List::Iter => self.history.iter(index, list),
            List::Newly(id) => self
                .history
                .newly_observed_by(id, index, notes, versions, boundaries, list),
            List::ReplicaEvents(origin, from, to) => self
                .history
                .replica_events(origin, from, to, index, list),
        }
    }

    // Where a row holds nothing the answer shows nothing.
    fn entry(&self, row: usize) -> Answer {
        let Tables { index, notes, .. } = self.tables;
        self.history
            .event_at(row, index, notes)
            .map_or(Answer::Nothing, Answer::Event)
    }
}
