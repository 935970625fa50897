// The history's side of the benchmark: each function makes a history of the rows that it is lent, makes one call so many times, and adds up what came back.
use crate::rows::{
    MOST_ROWS, ROW, asked, counted, desk, event, id, replica, row, rows_from, seq, version,
};
use clocks::refusal::Refusal;
use clocks::tagged_op::TaggedOp;
use clocks::vector::Seq;
use history::event_history::EventHistory;
use history::{Index, Notes};

// The tables of a history.
#[derive(Drop)]
struct Tables<'a> {
    index: &'a mut Index,
    versions: &'a mut [Seq; 8192],
    notes: &'a mut Notes,
    boundaries: &'a mut [Seq; 256],
}

// What `work` makes of tables that are zeros.
fn with_tables<W: FnOnce(&mut Tables) -> usize>(work: W) -> usize
    requires { W.IsAlwaysCallable work }
{
    let mut index = [0u16; 8192];
    let mut versions = [0; 8192];
    let mut notes = [0u64; 2560];
    let mut boundaries = [0; 256];
    let mut tables = Tables {
        index: &mut index,
        versions: &mut versions,
        notes: &mut notes,
        boundaries: &mut boundaries,
    };
    work(&mut tables)
}

// So many notes more.
fn grow(history: &mut EventHistory, rows: &[usize], n: usize, tables: &mut Tables) {
    for note in rows.chunks_exact(ROW).take(n.min(MOST_ROWS)) {
        let _ = history.append(
            event(note),
            version(note),
            tables.index,
            tables.versions,
            tables.notes,
            tables.boundaries,
        );
    }
}

fn built(rows: &[usize], n: usize, tables: &mut Tables) -> Result<EventHistory, Refusal> {
    let mut history = EventHistory::new(16)?;
    grow(&mut history, rows, n, tables);
    Ok(history)
}

// The sum of what `ask` makes of the answer in each round.
fn rounds_of<A: FnMut(&EventHistory, &Tables, usize) -> usize>(
    rows: &[usize],
    n: usize,
    rounds: usize,
    ask: A,
) -> usize
    requires { (f : _) (history : _) (tables : _) (k : _) → A.pre f history tables k }
{
    with_tables(
        |tables|
            requires { (f : _) (history : _) (tables : _) (k : _) → A.pre f history tables k }
        {
            match built(rows, n, tables) {
                Ok(history) => asked_rounds(&history, tables, rounds, ask),
                Err(_) => 0,
            }
        },
    )
}

fn asked_rounds<A: FnMut(&EventHistory, &Tables, usize) -> usize>(
    history: &EventHistory,
    tables: &Tables,
    rounds: usize,
    mut ask: A,
) -> usize
    requires { (f : _) (history : _) (tables : _) (k : _) → A.pre f history tables k }
{
    let mut sum: usize = 0;
    // Rounds are counted: `k` is no index.
    for k in 0..rounds {
        sum = sum.wrapping_add(ask(history, tables, k));
    }
    sum
}

// Whether something was found.
fn found(op: Option<TaggedOp>) -> usize {
    usize::from(op.is_some())
}

#[unsafe(no_mangle)]
pub extern "C" fn port_history_append(rows: &[usize], n: usize, rounds: usize) -> usize {
    with_tables(|tables| append_rounds(rows, n, rounds, tables))
}

fn append_rounds(rows: &[usize], n: usize, rounds: usize, tables: &mut Tables) -> usize {
    let mut sum: usize = 0;
    for _ in 0..rounds {
        sum = sum.wrapping_add(built(rows, n, tables).map_or(0, |history| history.len()));
    }
    sum
}

// The last of 512 notes and the fifteen before it removed, as far as they are there, and with them all of their desks.
fn empty(history: &mut EventHistory, rows: &[usize], tables: &mut Tables) {
    for k in (496..512).rev() {
        history.remove(
            id(row(rows, k)),
            tables.index,
            tables.versions,
            tables.boundaries,
        );
    }
}

// All notes, 512 at a time, and all of them removed: from the second time on every row is given again. Turns are counted: there may be fewer notes than `n`.
fn in_turns(rows: &[usize], n: usize, tables: &mut Tables) -> Result<EventHistory, Refusal> {
    let mut history = EventHistory::new(16)?;
    for turn in 0..n / 512 {
        let left = rows_from(rows, turn.saturating_mul(512));
        grow(&mut history, left, 512, tables);
        empty(&mut history, left, tables);
    }
    Ok(history)
}

#[unsafe(no_mangle)]
pub extern "C" fn port_history_again(rows: &[usize], n: usize, rounds: usize) -> usize {
    with_tables(|tables| again_rounds(rows, n, rounds, tables))
}

fn again_rounds(rows: &[usize], n: usize, rounds: usize, tables: &mut Tables) -> usize {
    let mut sum: usize = 0;
    for _ in 0..rounds {
        sum = sum.wrapping_add(in_turns(rows, n, tables).map_or(0, |history| history.len()));
    }
    sum
}

#[unsafe(no_mangle)]
pub extern "C" fn port_history_get(
    rows: &[usize],
    n: usize,
    queries: &[usize],
    m: usize,
    rounds: usize,
) -> usize {
    rounds_of(rows, n, rounds, |history, tables, k| {
        found(history.get(id(asked(queries, k, m)), tables.index, tables.notes))
    })
}

#[unsafe(no_mangle)]
pub extern "C" fn port_history_version(
    rows: &[usize],
    n: usize,
    queries: &[usize],
    m: usize,
    rounds: usize,
) -> usize {
    rounds_of(rows, n, rounds, |history, tables, k| {
        let id = id(asked(queries, k, m));
        history
            .version(id, tables.index, tables.notes, tables.versions)
            .len()
    })
}

#[unsafe(no_mangle)]
pub extern "C" fn port_history_previous(
    rows: &[usize],
    n: usize,
    queries: &[usize],
    m: usize,
    rounds: usize,
) -> usize {
    rounds_of(rows, n, rounds, |history, tables, k| {
        let id = id(asked(queries, k, m));
        found(history.previous(id, desk(k), tables.index, tables.notes, tables.versions))
    })
}

#[unsafe(no_mangle)]
pub extern "C" fn port_history_next(
    rows: &[usize],
    n: usize,
    queries: &[usize],
    m: usize,
    rounds: usize,
) -> usize {
    rounds_of(rows, n, rounds, |history, tables, k| {
        let id = id(asked(queries, k, m));
        found(history.next(id, desk(k), tables.index, tables.versions, tables.notes))
    })
}

#[unsafe(no_mangle)]
pub extern "C" fn port_history_predecessors(
    rows: &[usize],
    n: usize,
    queries: &[usize],
    m: usize,
    rounds: usize,
    out: &mut [usize],
) -> usize {
    rounds_of(rows, n, rounds, |history, tables, k| {
        counted(history.predecessors(version(asked(queries, k, m)), tables.index, out))
    })
}

#[unsafe(no_mangle)]
pub extern "C" fn port_history_concurrent(
    rows: &[usize],
    n: usize,
    queries: &[usize],
    m: usize,
    rounds: usize,
    out: &mut [usize],
) -> usize {
    rounds_of(rows, n, rounds, |history, tables, k| {
        counted(history.concurrent(version(asked(queries, k, m)), tables.index, out))
    })
}

#[unsafe(no_mangle)]
pub extern "C" fn port_history_iter(
    rows: &[usize],
    n: usize,
    rounds: usize,
    out: &mut [usize],
) -> usize {
    rounds_of(
        rows,
        n,
        rounds,
        |history, tables, _| counted(history.iter(tables.index, out)),
    )
}

#[unsafe(no_mangle)]
pub extern "C" fn port_history_replica_events(
    rows: &[usize],
    n: usize,
    queries: &[usize],
    m: usize,
    rounds: usize,
    out: &mut [usize],
) -> usize {
    rounds_of(rows, n, rounds, |history, tables, k| {
        let note = asked(queries, k, m);
        counted(history.replica_events(replica(note), 0, seq(note), tables.index, out))
    })
}

#[unsafe(no_mangle)]
pub extern "C" fn port_history_newly(
    rows: &[usize],
    n: usize,
    queries: &[usize],
    m: usize,
    rounds: usize,
    out: &mut [usize],
) -> usize {
    rounds_of(rows, n, rounds, |history, tables, k| {
        counted(history.newly_observed_by(
            id(asked(queries, k, m)),
            tables.index,
            tables.notes,
            tables.versions,
            tables.boundaries,
            out,
        ))
    })
}
