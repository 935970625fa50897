// Notes as rows of numbers, which the benchmark lends: origin, sequence, Lamport number, payload, then a version of 16 entries. All are for revision 0.
use clocks::event::Event;
use clocks::id::EventId;
use clocks::refusal::{Refusal, number_in};
use clocks::replica::ReplicaIdx;
use numbers::{entry, wide};

pub const ROW: usize = 20;

// So many rows are looked at; what is behind them is no row.
pub const MOST_ROWS: usize = 65_536;

// The rows from row i on; nothing where there are none.
pub fn rows_from(rows: &[usize], i: usize) -> &[usize] {
    if MOST_ROWS <= i {
        return &[];
    }
    rows.get(i * ROW..).unwrap_or(&[])
}

// Row i; nothing where there is none.
pub fn row(rows: &[usize], i: usize) -> &[usize] {
    if MOST_ROWS <= i {
        return &[];
    }
    let at = i * ROW;
    rows.get(at..at + ROW).unwrap_or(&[])
}

// The row that the turn k takes, of m in turn.
pub fn asked(rows: &[usize], k: usize, m: usize) -> &[usize] {
    row(rows, k.checked_rem(m).unwrap_or(0))
}

// The desk that the turn k takes: in turn another one than the note that it takes, and now and then the same.
pub fn desk(k: usize) -> ReplicaIdx {
    ReplicaIdx(k / 3 % 16)
}

pub fn replica(row: &[usize]) -> ReplicaIdx {
    ReplicaIdx(entry(row, 0))
}

pub fn seq(row: &[usize]) -> usize {
    entry(row, 1)
}

pub fn id(row: &[usize]) -> EventId {
    EventId::new(replica(row), seq(row))
}

pub fn event(row: &[usize]) -> Event {
    Event::new(id(row), wide(entry(row, 2)), wide(entry(row, 3)), 0)
}

pub fn version(row: &[usize]) -> &[usize] {
    row.get(4..ROW).unwrap_or(&[])
}

// How many were listed, or the refusal number.
pub fn counted(listed: Result<usize, Refusal>) -> usize {
    listed.unwrap_or(number_in(listed))
}
