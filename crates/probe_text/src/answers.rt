// Answer lines, collected in a buffer.
use crate::arguments::Vector;
use clocks::causal_frontier::CausalFrontier;
use clocks::id::{Disambiguator, EventId};
use clocks::refusal::{Refusal, number_in};
use clocks::tagged_op::TaggedOp;
use std::cmp::Ordering;
use text::buffer::Buffer;

// What an accepted line is answered with behind the 0.
#[derive(Clone, Copy, Debug, PartialEq, Eq)]
pub enum Answer {
    Nothing,
    Number(usize),
    Absent,
    Id(EventId),
    Event(TaggedOp),
    Compared(Option<Ordering>),
    Cut,
    Ids(EventId, EventId),
    Pruned,
    Vector(Vector),
    Counted(Vector, usize),
}

impl From<bool> for Answer {
    fn from(yes: bool) -> Answer {
        Answer::Number(usize::from(yes))
    }
}

impl From<Option<TaggedOp>> for Answer {
    fn from(op: Option<TaggedOp>) -> Answer {
        op.map_or(Answer::Absent, Answer::Event)
    }
}

// The entries of its desks.
impl From<CausalFrontier> for Vector {
    fn from(frontier: CausalFrontier) -> Vector {
        let entries = frontier.entries();
        Vector::from(entries.get(..frontier.len()).unwrap_or(&[]))
    }
}

impl From<CausalFrontier> for Answer {
    fn from(frontier: CausalFrontier) -> Answer {
        Answer::Vector(Vector::from(frontier))
    }
}

impl From<Option<CausalFrontier>> for Answer {
    fn from(frontier: Option<CausalFrontier>) -> Answer {
        frontier.map_or(Answer::Absent, Answer::from)
    }
}

// The answers that are not written yet.
#[derive(Drop)]
pub struct Output<'a> {
    pub buffer: Buffer<'a>,
}

impl<'a> Output<'a> {
    fn put(&mut self, bytes: &[u8]) {
        self.buffer.put(bytes);
    }

    fn number(&mut self, n: u64) {
        self.buffer.put_number(n);
    }

    // A mark and a number.
    fn marked(&mut self, mark: u8, n: u64) {
        self.put(&[mark]);
        self.number(n);
    }

    // A number after a space.
    fn spaced(&mut self, n: usize) {
        self.marked(b' ', n as u64);
    }

    // Each number after a space; a dash where there are none.
    fn vector(&mut self, row: &[usize]) {
        if row.is_empty() {
            self.put(b" -");
        }
        for n in row {
            self.spaced(*n);
        }
    }

    fn disambiguator(&mut self, d: Disambiguator) {
        match d {
            Disambiguator::Absent => self.put(b":-"),
            Disambiguator::Number(n) => self.marked(b':', u64::from(n)),
        }
    }

    // An id after a space.
    fn id(&mut self, id: EventId) {
        self.spaced(id.idx.0);
        self.marked(b':', id.seq as u64);
        self.disambiguator(id.disambiguator);
    }

    // An event after a space.
    fn event(&mut self, op: TaggedOp) {
        self.id(op.id());
        self.marked(b':', op.lamport());
        self.marked(b':', op.op);
        self.marked(b':', u64::from(op.revision));
    }

    fn comparison(&mut self, c: Option<Ordering>) {
        self.put(match c {
            Some(Ordering::Equal) => b" equal",
            Some(Ordering::Greater) => b" above",
            Some(Ordering::Less) => b" below",
            None => b" beside",
        });
    }

    // What an answer starts with: the refusal number, or 0.
    pub fn begun<T: Copy>(&mut self, answer: Result<T, Refusal>) {
        self.number(number_in(answer) as u64);
    }

    // What follows, after a space.
    pub fn answer(&mut self, answer: Answer) {
        match answer {
            Answer::Nothing => {}
            Answer::Number(n) => self.spaced(n),
            Answer::Absent => self.put(b" -"),
            Answer::Id(id) => self.id(id),
            Answer::Event(op) => self.event(op),
            Answer::Compared(c) => self.comparison(c),
            Answer::Cut => self.put(b" cut"),
            Answer::Ids(first, second) => {
                self.id(first);
                self.id(second);
            }
            Answer::Pruned => self.put(b" pruned"),
            Answer::Vector(vector) => self.vector(vector.entries()),
            Answer::Counted(vector, count) => {
                self.vector(vector.entries());
                self.spaced(count);
            }
        }
    }

    // A number after a slash.
    pub fn slashed(&mut self, n: usize) {
        self.marked(b'/', n as u64);
    }

    // The line's end, and before it whether anything changed where nothing may.
    pub fn ended(&mut self, is_changed: bool) {
        if is_changed {
            self.put(b" CHANGED");
        }
        self.put(b"\n");
    }

    // A whole line.
    pub fn told(&mut self, answer: Result<Answer, Refusal>, is_changed: bool) {
        self.begun(answer);
        if let Ok(answer) = answer {
            self.answer(answer);
        }
        self.ended(is_changed);
    }
}
