// Carries over clock/version_vector.rs: a version is a frontier's entries with the replica that it belongs to.
ghost use Rattle.std.specs.Prelude.{◌≡◌, ◌-◌, ◌≤◌, ◌&&◌, length, ◌==◌, nat_eq};
ghost use Rattle.clocks.specs.Vectors.{entry, at_most, total};
ghost use Rattle.clocks.specs.Frontiers.{met, set_by_idx};
ghost use Rattle.laws.specs.Counting.{pick, count_below};
ghost use Rattle.laws.specs.Lists.{list_below, written};
ghost use Rattle.clocks.specs.Versions.{made_v, answered_v, carried, new_version, own_entry, stray_origin, identified, incremented, joined_versions, named, needed, Depends};

use crate::causal_frontier::CausalFrontier;
use crate::id::EventId;
use crate::refusal::Refusal;
use crate::replica::ReplicaIdx;
use crate::vector::{DESKS, Seq, TOP, at_most};

#[derive(Clone, Copy, Debug, PartialEq, Eq)]
pub struct Version {
    entries: CausalFrontier,
    origin_idx: ReplicaIdx,
}

// Whether a version contains every event represented by `frontier`. This compares all components, including the origin's.
pub fn includes_frontier(version: &[Seq], frontier: CausalFrontier) -> bool
    ensures { result ≡ at_most frontier.entries version.now }
{
    at_most(&frontier.entries(), version)
}

impl Version {
    // Zeros for R replicas.
    pub fn new(origin_idx: ReplicaIdx, r: usize) -> Result<Version, Refusal>
        ensures { made_v origin_idx result ≡ new_version origin_idx r }
    {
        let entries = CausalFrontier::new(r)?;
        Ok(Version {
            entries,
            origin_idx,
        })
    }

    // The Rust's conversion from a frontier: the caller chooses the origin, so it is no `From`.
    pub fn from_frontier(frontier: CausalFrontier, origin_idx: ReplicaIdx) -> Version
        ensures { result ≡ record { entries = frontier; origin_idx = origin_idx } }
    {
        Version {
            entries: frontier,
            origin_idx,
        }
    }

    // The Rust's conversion to a frontier.
    pub fn frontier(self) -> CausalFrontier
        ensures { result ≡ self.entries }
    {
        self.entries
    }

    pub fn origin_idx(self) -> ReplicaIdx
        ensures { result ≡ self.origin_idx }
    {
        self.origin_idx
    }

    pub fn origin_seq(self) -> Seq
        ensures { result ≡ own_entry self }
    {
        self.seq_by_idx(self.origin_idx)
    }

    // The Rust's conversion to an id, which panics where the own entry is 0: here that is refused.
    #[tactic(auto, unfolding(crate::specs::Versions::identified))]
    pub fn id(self) -> Result<EventId, Refusal>
        ensures { result ≡ identified self }
    {
        let seq = self.origin_seq();
        if seq == 0 {
            return Err(Refusal::BadSequence);
        }
        Ok(EventId::new(self.origin_idx, seq))
    }

    pub fn len(self) -> usize
        ensures { result ≡ self.entries.len }
    {
        self.entries.len()
    }

    pub fn is_empty(self) -> bool
        ensures { result ≡ (self.entries.len == 0) }
    {
        self.entries.is_empty()
    }

    pub fn seq_by_idx(self, idx: ReplicaIdx) -> Seq
        ensures { result ≡ entry self.entries.entries idx.0 }
    {
        self.entries.seq_by_idx(idx)
    }

    // As the frontier's.
    pub fn set_by_idx(&mut self, idx: ReplicaIdx, value: Seq) -> Result<(), Refusal>
        ensures { answered_v result self.new ≡ carried (set_by_idx self.old.entries idx.0 value) self.old }
    {
        self.entries.set_by_idx(idx, value)
    }

    pub fn sum(self) -> usize
        ensures { result ≡ total self.entries.entries }
    {
        self.entries.sum()
    }

    pub fn includes_frontier(self, frontier: CausalFrontier) -> bool
        ensures { result ≡ at_most frontier.entries self.entries.entries }
    {
        includes_frontier(&self.entries.entries(), frontier)
    }

    // The origin is no replica of this version.
    fn is_stray(self) -> bool
        ensures { result ≡ stray_origin self }
    {
        self.len() <= self.origin_idx.0
    }

    // The origin's entry one higher. A stray origin is refused before an entry that is already the top.
    #[tactic(auto, unfolding(crate::specs::Versions::incremented))]
    pub fn increment(&mut self) -> Result<(), Refusal>
        ensures { answered_v result self.new ≡ incremented self.old }
    {
        if self.is_stray() {
            return Err(Refusal::BadOrigin);
        }
        let seq = self.origin_seq();
        if TOP <= seq {
            return Err(Refusal::BadVector);
        }
        self.set_by_idx(self.origin_idx, seq + 1)
    }

    // Merge two clocks. A stray origin is refused, then another that is no event's version.
    // Where the other's event is covered nothing changes, as in the Rust's code.
    #[tactic(auto, unfolding(crate::specs::Versions::joined_versions, crate::specs::Versions::identified))]
    pub fn join(&mut self, other: Version) -> Result<(), Refusal>
        ensures { answered_v result self.new ≡ joined_versions self.old other }
    {
        if self.is_stray() {
            return Err(Refusal::BadOrigin);
        }
        if other.is_stray() {
            return Err(Refusal::BadOrigin);
        }
        let event = other.id()?;
        if !self.entries.contains(event) {
            self.entries = self.entries.join(other.entries);
        }
        Ok(())
    }

    pub fn meet(self, other: Version) -> Version
        ensures { result ≡ record { entries = met self.entries other.entries; origin_idx = self.origin_idx } }
    {
        Version {
            entries: self.entries.meet(other.entries),
            origin_idx: self.origin_idx,
        }
    }

    // The events that this version depends on, as a replica and a sequence each: how many were written. An own entry of 1 names sequence 0.
    // Two buffers and no list of pairs, since `Depends` is said of both.
    pub fn dependencies(self, replicas: &mut [usize], seqs: &mut [Seq]) -> Result<usize, Refusal>
        ensures { Depends self replicas.old seqs.old replicas.new seqs.new result }
    {
        let entries = self.entries.entries();
        let count = positive(entries);
        if replicas.len() < count {
            return Err(Refusal::NoRoom);
        }
        if seqs.len() < count {
            return Err(Refusal::NoRoom);
        }
        write_named(entries, self.origin_idx, replicas, seqs);
        Ok(count)
    }
}

// How many entries are above 0.
fn positive(entries: [Seq; DESKS]) -> usize
    ensures { result ≡ count_below (named entries) 16 }
{
    entries.iter().filter(|seq| **seq > 0).count()
}

// What a replica's entry asks for: one less at the version's own.
fn needed(seq: Seq, is_own: bool) -> Seq
    ensures { result ≡ pick is_own (seq - 1) seq }
{
    if is_own { seq.saturating_sub(1) } else { seq }
}

// Each replica that has an entry above 0, and what it asks for, from the buffers' start.
fn write_named(entries: [Seq; DESKS], origin: ReplicaIdx, replicas: &mut [usize], seqs: &mut [Seq])
    requires replicas_room { count_below (named entries) 16 ≤ length replicas.old }
    requires seqs_room { count_below (named entries) 16 ≤ length seqs.old }
    ensures names { replicas.new ≡ written (list_below (named entries) (λ i. i) 16) replicas.old }
    ensures sequences { seqs.new ≡ written (list_below (named entries) (needed entries origin.0) 16) seqs.old }
{
    let mut n = 0;
    // The place in the buffers rises only where an entry is named.
    for (i, seq) in entries.iter().enumerate() {
        if *seq > 0 {
            replicas[n] = i;
            seqs[n] = needed(*seq, i == origin.0);
            n += 1;
        }
    }
}
