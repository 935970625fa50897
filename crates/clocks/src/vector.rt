// Vectors as they are lent: slices of any length and any values. Carries over `VersionEntries` of clock/version_vector.rs and
// `partial_cmp` of clock/causal_frontier.rs. A missing entry is 0.
ghost use Rattle.std.specs.Prelude.{◌≡◌};
ghost use Rattle.clocks.specs.Vectors.{is_bad_sequence, entry, well_formed, well_formed_for, at_most, compared, total};

use crate::id::EventId;
use crate::replica::ReplicaIdx;
use numbers::entry;
use std::cmp::Ordering;

// A sequence number, or a vector's entry.
pub type Seq = usize;

// The highest sequence and entry.
pub const TOP: Seq = 4_294_967_295;

// The most desks.
pub const DESKS: usize = 16;

// Outside 1 .. the top.
pub fn is_bad_sequence(seq: Seq) -> bool
    ensures { result ≡ is_bad_sequence seq }
{
    seq == 0 || TOP < seq
}

pub fn seq_by_idx(v: &[Seq], idx: ReplicaIdx) -> Seq
    ensures { result ≡ entry v.now idx.0 }
{
    entry(v, idx.0)
}

// At most R long, and no entry above the top. A shorter vector counts as followed by zeros.
// A loop and no `all`, which took twice the steps for an entry: 10 where the loop takes 5.
pub fn well_formed(r: usize, v: &[Seq]) -> bool
    ensures { result ≡ well_formed r v.now }
{
    if r < v.len() {
        return false;
    }
    for x in v {
        if TOP < *x {
            return false;
        }
    }
    true
}

// The same, and for an event its own entry equal to its sequence.
#[tactic(auto, unfolding(crate::specs::Vectors::well_formed_for))]
pub fn well_formed_for(r: usize, v: &[Seq], id: EventId) -> bool
    ensures { result ≡ well_formed_for r v.now id }
{
    well_formed(r, v) && seq_by_idx(v, id.idx) == id.seq
}

// Every entry of `a` is at most `b`'s.
pub fn at_most(a: &[Seq], b: &[Seq]) -> bool
    ensures { result ≡ at_most a.now b.now }
{
    a.iter()
        .enumerate()
        .all(|(i, x)| *x <= seq_by_idx(b, ReplicaIdx(i)))
}

// `partial_cmp` of the Rust's frontiers: None where neither is at most the other.
#[tactic(auto, unfolding(crate::specs::Vectors::compared))]
pub fn compare(a: &[Seq], b: &[Seq]) -> Option<Ordering>
    ensures { result ≡ compared a.now b.now }
{
    match (at_most(a, b), at_most(b, a)) {
        (true, true) => Some(Ordering::Equal),
        (true, false) => Some(Ordering::Less),
        (false, true) => Some(Ordering::Greater),
        (false, false) => None,
    }
}

// The sum of the entries, which wraps at 2^64; a well-formed vector's does not reach it.
pub fn sum(v: &[Seq]) -> usize
    ensures { result ≡ total v.now }
{
    v.iter().fold(0, |s, x| s.wrapping_add(*x))
}
