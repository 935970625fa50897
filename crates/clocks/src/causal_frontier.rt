// Carries over clock/causal_frontier.rs. A frontier holds R and an entry for each of sixteen desks; those at R and above stay 0.
ghost use Rattle.std.specs.Prelude.{◌≡◌, ◌==◌, slice_set};
ghost use Rattle.clocks.specs.Vectors.{entry, covers, compared, total};
ghost use Rattle.clocks.specs.Frontiers.{made, answered, new_frontier, from_entries, SetInPlace, join_entries, meet_entries, joined, met, join_version, widened, is_bad_count, is_bad_raise};
ghost use Rattle.clocks.specs.Refusals.{number_in};

use crate::id::EventId;
use crate::refusal::Refusal;
use crate::replica::ReplicaIdx;
use crate::vector::{DESKS, Seq, TOP, compare, seq_by_idx, well_formed};
use std::cmp::Ordering;

// A component-wise causal cut with no distinguished event origin.
#[derive(Clone, Copy, Debug, PartialEq, Eq)]
pub struct CausalFrontier {
    // R, the number of desks.
    len: usize,
    entries: [Seq; DESKS],
}

// Entry by entry the greater of both.
pub fn joined_entries(a: [Seq; DESKS], b: &[Seq]) -> [Seq; DESKS]
    ensures { result ≡ join_entries a b.now }
{
    std::array::from_fn(|i| a[i].max(seq_by_idx(b, ReplicaIdx(i))))
}

// Entry by entry the lesser of both.
pub fn met_entries(a: [Seq; DESKS], b: &[Seq]) -> [Seq; DESKS]
    ensures { result ≡ meet_entries a b.now }
{
    std::array::from_fn(|i| a[i].min(seq_by_idx(b, ReplicaIdx(i))))
}

// One entry changed; past the array nothing is. With `get_mut` in place of the test the check does not tell what became of the array.
pub fn with_entry(entries: [Seq; DESKS], i: usize, value: Seq) -> [Seq; DESKS]
    ensures { result ≡ slice_set entries i value }
{
    let mut out = entries;
    if i < DESKS {
        out[i] = value;
    }
    out
}

// R is 0 or above 16.
fn is_bad_count(r: usize) -> bool
    ensures { result ≡ is_bad_count r }
{
    r == 0 || DESKS < r
}

// A raise from R to s: s is no count, or below R.
pub fn is_bad_raise(r: usize, s: usize) -> bool
    ensures { result ≡ is_bad_raise r s }
{
    is_bad_count(s) || s < r
}

fn zeros(r: usize) -> CausalFrontier
    ensures { result ≡ Rattle.clocks.specs.Frontiers.zeros r }
{
    CausalFrontier {
        len: r,
        entries: [0; DESKS],
    }
}

// The frontier of no desks.
impl Default for CausalFrontier {
    ghost is_default = { λ f. f ≡ Rattle.clocks.specs.Frontiers.zeros 0 };

    fn default() -> CausalFrontier {
        zeros(0)
    }
}

impl CausalFrontier {
    // A frontier of R zeros.
    #[tactic(auto, unfolding(crate::specs::Frontiers::new_frontier))]
    pub fn new(r: usize) -> Result<CausalFrontier, Refusal>
        ensures { made result ≡ new_frontier r }
    {
        if is_bad_count(r) {
            return Err(Refusal::BadCount);
        }
        Ok(zeros(r))
    }

    // The frontier with these entries. The count is refused before the vector.
    #[tactic(auto, using(crate::proofs::Frontiers::zero_joins), unfolding(crate::specs::Frontiers::from_entries))]
    pub fn from_entries(r: usize, v: &[Seq]) -> Result<CausalFrontier, Refusal>
        ensures { made result ≡ from_entries r v.now }
    {
        if is_bad_count(r) {
            return Err(Refusal::BadCount);
        }
        if !well_formed(r, v) {
            return Err(Refusal::BadVector);
        }
        let entries = joined_entries([0; DESKS], v);
        Ok(CausalFrontier { len: r, entries })
    }

    // As many zeros.
    pub fn zeroed(self) -> CausalFrontier
        ensures { result ≡ Rattle.clocks.specs.Frontiers.zeros self.len }
    {
        zeros(self.len)
    }

    pub fn len(self) -> usize
        ensures { result ≡ self.len }
    {
        self.len
    }

    pub fn is_empty(self) -> bool
        ensures { result ≡ (self.len == 0) }
    {
        self.len == 0
    }

    // The entries, for a call that takes a slice; those at R and above are 0.
    pub fn entries(self) -> [Seq; DESKS]
        ensures { result ≡ self.entries }
    {
        self.entries
    }

    pub fn seq_by_idx(self, idx: ReplicaIdx) -> Seq
        ensures { result ≡ entry self.entries idx.0 }
    {
        seq_by_idx(&self.entries, idx)
    }

    // One entry changed. A replica R or above is refused before a value above the top, and on a refusal nothing changes.
    #[tactic(auto, unfolding(crate::specs::Frontiers::set_by_idx))]
    pub fn set_by_idx(&mut self, idx: ReplicaIdx, value: Seq) -> Result<(), Refusal>
        ensures { SetInPlace self.old idx.0 value (number_in result) self.new }
    {
        let i = idx.0;
        if self.len <= i {
            return Err(Refusal::BadOrigin);
        }
        if TOP < value {
            return Err(Refusal::BadVector);
        }
        self.entries = with_entry(self.entries, i, value);
        Ok(())
    }

    pub fn sum(self) -> usize
        ensures { result ≡ total self.entries }
    {
        crate::vector::sum(&self.entries)
    }

    // Incorporate an event's causal past and the event itself.
    #[tactic(auto, unfolding(crate::specs::Frontiers::join_version))]
    pub fn join_version(&mut self, version: &[Seq]) -> Result<(), Refusal>
        ensures { answered result self.new ≡ join_version self.old version.now }
    {
        if !well_formed(self.len, version) {
            return Err(Refusal::BadVector);
        }
        self.entries = joined_entries(self.entries, version);
        Ok(())
    }

    // More desks; 0, above 16 and below the present R are refused. The new entries are 0.
    #[tactic(auto, unfolding(crate::specs::Frontiers::widened))]
    pub fn raise(&mut self, r: usize) -> Result<(), Refusal>
        ensures { answered result self.new ≡ widened self.old r }
    {
        if is_bad_raise(self.len, r) {
            return Err(Refusal::BadCount);
        }
        self.len = r;
        Ok(())
    }

    // No entry below these. They are the caller's to keep within the top and below R.
    pub fn raised(self, entries: [Seq; DESKS]) -> CausalFrontier
        ensures { result ≡ record { len = self.len; entries = join_entries self.entries entries } }
    {
        CausalFrontier {
            len: self.len,
            entries: joined_entries(self.entries, &entries),
        }
    }

    // Incorporate everything represented by another frontier.
    pub fn join(self, other: CausalFrontier) -> CausalFrontier
        ensures { result ≡ joined self other }
    {
        CausalFrontier {
            len: self.len.max(other.len),
            entries: joined_entries(self.entries, &other.entries),
        }
    }

    // The component-wise intersection of two causal cuts.
    pub fn meet(self, other: CausalFrontier) -> CausalFrontier
        ensures { result ≡ met self other }
    {
        CausalFrontier {
            len: self.len.max(other.len),
            entries: met_entries(self.entries, &other.entries),
        }
    }

    pub fn contains(self, id: EventId) -> bool
        ensures { result ≡ covers self.entries id }
    {
        id.is_predecessor_of(&self.entries)
    }

    // No `PartialOrd`: the entries alone are compared, and by `==` R too.
    pub fn partial_cmp(self, other: CausalFrontier) -> Option<Ordering>
        ensures { result ≡ compared self.entries other.entries }
    {
        compare(&self.entries, &other.entries)
    }
}
