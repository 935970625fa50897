// The graph's changes, so many times over. Each round starts with a copy of the graph and the tables that were made of the rows; `port_graph_copies` makes the copies alone, for
// their time to be taken away. The tables that change are the caller's, so that no store is left out, and the graph that came back last is looked at, so that it is made whole.
use crate::graphs::{built, told};
use crate::rows::{asked, id, row, version};
use graph::{COLUMNS, EventGraph, Pasts, Slots};

// More where the first note's version is critical; for that the graph goes through its cuts.
fn looked_at(sum: usize, graph: &EventGraph, rows: &[usize], slots: &Slots) -> usize {
    sum.wrapping_add(told(graph.is_critical(version(row(rows, 0)), slots)))
}

// Each round appends every row to a graph that holds nothing.
#[unsafe(no_mangle)]
pub extern "C" fn port_graph_append(
    rows: &[usize],
    n: usize,
    rounds: usize,
    slots: &mut Slots,
    pasts: &mut Pasts,
) -> usize {
    let mut sum: usize = 0;
    for _ in 0..rounds {
        if let Ok(graph) = built(rows, n, slots, pasts) {
            sum = looked_at(sum, &graph, rows, slots);
        }
    }
    sum
}

// The sum of what `change` counts in each round.
fn rounds_of<C: FnMut(&mut EventGraph, &mut Slots, &mut Pasts, usize) -> usize>(
    rows: &[usize],
    n: usize,
    rounds: usize,
    slots: &mut Slots,
    pasts: &mut Pasts,
    mut change: C,
) -> usize
    requires { C.IsAlwaysCallable change }
{
    let mut made_slots = [[0; 256]; COLUMNS];
    let mut made_pasts = [0; 1024];
    let Ok(made) = built(rows, n, &mut made_slots, &mut made_pasts) else {
        return 0;
    };
    let mut graph = made;
    let mut sum: usize = 0;
    // Rounds are counted: `k` is no index.
    for k in 0..rounds {
        *slots = made_slots;
        *pasts = made_pasts;
        graph = made;
        sum = sum.wrapping_add(change(&mut graph, slots, pasts, k));
    }
    looked_at(sum, &graph, rows, slots)
}

#[unsafe(no_mangle)]
pub extern "C" fn port_graph_copies(
    rows: &[usize],
    n: usize,
    rounds: usize,
    slots: &mut Slots,
    pasts: &mut Pasts,
) -> usize {
    rounds_of(rows, n, rounds, slots, pasts, |_, _, _, _| 0)
}

#[unsafe(no_mangle)]
pub extern "C" fn port_graph_flush(
    rows: &[usize],
    n: usize,
    queries: &[usize],
    m: usize,
    rounds: usize,
    slots: &mut Slots,
    pasts: &mut Pasts,
) -> usize {
    rounds_of(rows, n, rounds, slots, pasts, |graph, slots, pasts, k| {
        let frontier = version(asked(queries, k, m));
        graph
            .prune_predecessors(frontier, slots, pasts)
            .unwrap_or(0)
    })
}

#[unsafe(no_mangle)]
pub extern "C" fn port_graph_advance(
    rows: &[usize],
    n: usize,
    queries: &[usize],
    m: usize,
    rounds: usize,
    slots: &mut Slots,
    pasts: &mut Pasts,
) -> usize {
    rounds_of(rows, n, rounds, slots, pasts, |graph, slots, pasts, k| {
        match graph.advance(version(asked(queries, k, m)), slots, pasts) {
            Ok(Some(advanced)) => advanced.count,
            _ => 0,
        }
    })
}

#[unsafe(no_mangle)]
pub extern "C" fn port_graph_remove(
    rows: &[usize],
    n: usize,
    queries: &[usize],
    m: usize,
    rounds: usize,
    slots: &mut Slots,
    pasts: &mut Pasts,
) -> usize {
    rounds_of(rows, n, rounds, slots, pasts, |graph, slots, pasts, k| {
        graph.remove(id(asked(queries, k, m)), slots, pasts)
    })
}

#[unsafe(no_mangle)]
pub extern "C" fn port_graph_retain(
    rows: &[usize],
    n: usize,
    mask: &[u8],
    rounds: usize,
    slots: &mut Slots,
    pasts: &mut Pasts,
) -> usize {
    rounds_of(rows, n, rounds, slots, pasts, |graph, slots, pasts, _| {
        graph.retain(mask, slots, pasts).unwrap_or(0)
    })
}
