// The graph's side of the benchmark: each function makes a graph of the rows that it is lent, asks it one thing so many times, and adds up something of each answer,
// so that no part of a call is left out.
use crate::rows::{MOST_ROWS, ROW, asked, counted, desk, event, id, version};
use clocks::causal_frontier::CausalFrontier;
use clocks::refusal::Refusal;
use graph::{COLUMNS, EventGraph, Pasts, Slots};
use numbers::size;

// A graph of the rows, in tables that are emptied first.
pub(super) fn built(
    rows: &[usize],
    n: usize,
    slots: &mut Slots,
    pasts: &mut Pasts,
) -> Result<EventGraph, Refusal> {
    *slots = [[0; 256]; COLUMNS];
    *pasts = [0; 1024];
    let mut graph = EventGraph::new(16)?;
    for note in rows.chunks_exact(ROW).take(n.min(MOST_ROWS)) {
        let _ = graph.append(event(note), version(note), slots, pasts);
    }
    Ok(graph)
}

// The sum of what `ask` makes of the answer in each round.
fn rounds_of<A: FnMut(&EventGraph, &Slots, &Pasts, usize) -> usize>(
    rows: &[usize],
    n: usize,
    rounds: usize,
    mut ask: A,
) -> usize
    requires { A.IsAlwaysCallable ask }
{
    let mut slots = [[0; 256]; COLUMNS];
    let mut pasts = [0; 1024];
    let Ok(graph) = built(rows, n, &mut slots, &mut pasts) else {
        return 0;
    };
    let mut sum: usize = 0;
    // Rounds are counted: `k` is no index.
    for k in 0..rounds {
        sum = sum.wrapping_add(ask(&graph, &slots, &pasts, k));
    }
    sum
}

// The entry of a desk, another one each turn.
fn reached(frontier: Option<CausalFrontier>, k: usize) -> usize {
    frontier.map_or(0, |f| f.seq_by_idx(desk(k)))
}

pub(super) fn told(answer: Result<bool, Refusal>) -> usize {
    counted(answer.map(usize::from))
}

#[unsafe(no_mangle)]
pub extern "C" fn port_graph_greatest(
    rows: &[usize],
    n: usize,
    queries: &[usize],
    m: usize,
    rounds: usize,
) -> usize {
    rounds_of(rows, n, rounds, |graph, slots, _, k| {
        let bound = version(asked(queries, k, m));
        reached(
            graph
                .greatest_critical_frontier(bound, slots)
                .unwrap_or(None),
            k,
        )
    })
}

#[unsafe(no_mangle)]
pub extern "C" fn port_graph_is_critical(
    rows: &[usize],
    n: usize,
    queries: &[usize],
    m: usize,
    rounds: usize,
) -> usize {
    rounds_of(rows, n, rounds, |graph, slots, _, k| {
        told(graph.is_critical(version(asked(queries, k, m)), slots))
    })
}

#[unsafe(no_mangle)]
pub extern "C" fn port_graph_seen_all(
    rows: &[usize],
    n: usize,
    queries: &[usize],
    m: usize,
    rounds: usize,
) -> usize {
    rounds_of(rows, n, rounds, |graph, _, _, k| {
        told(graph.seen_all(version(asked(queries, k, m))))
    })
}

#[unsafe(no_mangle)]
pub extern "C" fn port_graph_predecessors(
    rows: &[usize],
    n: usize,
    queries: &[usize],
    m: usize,
    rounds: usize,
    out: &mut [usize],
) -> usize {
    rounds_of(rows, n, rounds, |graph, slots, _, k| {
        counted(graph.predecessors(version(asked(queries, k, m)), slots, out))
    })
}

#[unsafe(no_mangle)]
pub extern "C" fn port_graph_concurrent(
    rows: &[usize],
    n: usize,
    queries: &[usize],
    m: usize,
    rounds: usize,
    out: &mut [usize],
) -> usize {
    rounds_of(rows, n, rounds, |graph, slots, _, k| {
        counted(graph.concurrent(version(asked(queries, k, m)), slots, out))
    })
}

#[unsafe(no_mangle)]
pub extern "C" fn port_graph_frontier(
    rows: &[usize],
    n: usize,
    rounds: usize,
    out: &mut [usize],
) -> usize {
    rounds_of(
        rows,
        n,
        rounds,
        |graph, _, pasts, _| counted(graph.frontier(pasts, out)),
    )
}

#[unsafe(no_mangle)]
pub extern "C" fn port_graph_direct_predecessors(
    rows: &[usize],
    n: usize,
    queries: &[usize],
    m: usize,
    rounds: usize,
    out: &mut [usize],
) -> usize {
    rounds_of(rows, n, rounds, |graph, slots, pasts, k| {
        counted(graph.direct_predecessors(id(asked(queries, k, m)), slots, pasts, out))
    })
}

#[unsafe(no_mangle)]
pub extern "C" fn port_graph_get(
    rows: &[usize],
    n: usize,
    queries: &[usize],
    m: usize,
    rounds: usize,
) -> usize {
    rounds_of(rows, n, rounds, |graph, slots, _, k| {
        graph
            .get(id(asked(queries, k, m)), slots)
            .map_or(0, |op| size(op.op))
    })
}

#[unsafe(no_mangle)]
pub extern "C" fn port_graph_delivery_order(
    rows: &[usize],
    n: usize,
    queries: &[usize],
    m: usize,
    rounds: usize,
) -> usize {
    rounds_of(rows, n, rounds, |graph, slots, _, k| {
        graph
            .delivery_order(id(asked(queries, k, m)), slots)
            .map_or(0, |i| i.0)
    })
}

#[unsafe(no_mangle)]
pub extern "C" fn port_graph_roots(rows: &[usize], n: usize, rounds: usize) -> usize {
    rounds_of(rows, n, rounds, |graph, _, _, k| reached(graph.roots(), k))
}
