// Sets of positions 0..255, as four words of 64 bits: they stand for the Rust's FxHashSets of NodeIndex, and NodeIndex for petgraph's.
// No position from 256 on is ever a member, and every function answers for such positions too.
#![tactic(auto)]

ghost use Rattle.std.specs.Prelude.{◌≡◌, false, not, ◌&&◌, ◌||◌, ℕ, ◌+◌, ltb, eqb};
ghost use Rattle.laws.specs.Counting.{count_below};
ghost use Rattle.positions.specs.Members.{has, FirstMissing, Subset, IsHighest};

use numbers::joined;
use std::array;

mod plan;
mod word;

// A position in a graph.
#[derive(Clone, Copy, Debug, PartialEq, Eq, PartialOrd, Ord)]
pub struct NodeIndex(pub usize);

// Bit `k` of word `w` stands for the position 64 * w + k.
#[derive(Clone, Copy, Debug, PartialEq, Eq)]
pub struct Positions {
    words: [u64; 4],
}

// A keep set made ready to compact many sets: four words of marks for each of eight rounds.
#[derive(Clone, Copy)]
pub struct Compaction {
    keep: Positions,
    marks: [u64; 32],
}

impl Positions {
    pub fn empty() -> Positions
        ensures { (k : ℕ) → has result k ≡ false }
    {
        Positions { words: [0u64; 4] }
    }

    // All 256 positions.
    pub fn all() -> Positions
        ensures { (k : ℕ) → has result k ≡ ltb k 256 }
    {
        Positions {
            words: [0xFFFF_FFFF_FFFF_FFFFu64; 4],
        }
    }

    // The set of these four words.
    pub fn from_words(words: [u64; 4]) -> Positions
        ensures { result ≡ record { words = words } }
    {
        Positions { words }
    }

    pub fn words(self) -> [u64; 4]
        ensures { result ≡ self.words }
    {
        self.words
    }

    pub fn contains(&self, i: NodeIndex) -> bool
        ensures { result ≡ has self.now i.0 }
    {
        let k = i.0;
        if k < 256 {
            (self.words[k / 64] >> (k % 64)) & 1 == 1
        } else {
            false
        }
    }

    pub fn with(self, i: NodeIndex) -> Positions
        ensures { (k : ℕ) → has result k ≡ (has self k || (eqb k i.0 && ltb k 256)) }
    {
        let k = i.0;
        let mut ws = self.words;
        if k < 256 {
            let j = k / 64;
            ws[j] = word::with_digit(ws[j], 1, k % 64);
        }
        Positions { words: ws }
    }

    pub fn union(self, other: Positions) -> Positions
        ensures { (k : ℕ) → has result k ≡ (has self k || has other k) }
    {
        Positions {
            words: array::from_fn(|j| self.words[j] | other.words[j]),
        }
    }

    pub fn intersection(self, other: Positions) -> Positions
        ensures { (k : ℕ) → has result k ≡ (has self k && has other k) }
    {
        Positions {
            words: array::from_fn(|j| self.words[j] & other.words[j]),
        }
    }

    pub fn without(self, other: Positions) -> Positions
        ensures { (k : ℕ) → has result k ≡ (has self k && not (has other k)) }
    {
        Positions {
            words: array::from_fn(|j| word::without(self.words[j], other.words[j])),
        }
    }

    pub fn is_subset(self, other: Positions) -> bool
        ensures { Subset self other result }
    {
        self.without(other) == Positions::empty()
    }

    // How many members there are.
    pub fn size(self) -> usize
        ensures { result ≡ count_below (has self) 256 }
    {
        // Written out: `map` and `sum` ask for the bound of a sum that the sizes of four counts do not give them.
        let a = self.words;
        word::ones(a[0]) + word::ones(a[1]) + word::ones(a[2]) + word::ones(a[3])
    }

    // The least position that is no member, 256 where all are members: a length, which callers compare and cut with.
    pub fn first_missing(self) -> usize
        ensures { FirstMissing self result }
    {
        for (j, w) in self.words.iter().enumerate() {
            let z = word::low_zero(*w);
            if z < 64 {
                return 64 * j + z;
            }
        }
        256
    }

    // The greatest member.
    fn highest(self) -> Option<NodeIndex>
        ensures { IsHighest self 256 result }
    {
        for (j, w) in self.words.iter().enumerate().rev() {
            let l = word::bit_length(*w);
            if 0 < l {
                return Some(NodeIndex(64 * j + l - 1));
            }
        }
        None
    }

    // The greatest member below `n`.
    pub fn highest_below(self, n: usize) -> Option<NodeIndex>
        ensures { IsHighest self n result }
    {
        self.below(n).highest()
    }

    // The members below `n`.
    pub fn below(self, n: usize) -> Positions
        ensures { (k : ℕ) → has result k ≡ (has self k && ltb k n) }
    {
        Positions {
            words: array::from_fn(|j| word::below(self.words[j], n.saturating_sub(64 * j))),
        }
    }

    // Every member down by `n`; those below `n` are gone.
    pub fn lowered(self, n: usize) -> Positions
        ensures { (k : ℕ) → has result k ≡ has self (k + n) }
    {
        let w = n / 64;
        Positions {
            words: array::from_fn(|j| {
                joined(
                    word::at(&self.words, w + j),
                    word::at(&self.words, w + j + 1),
                    n,
                )
            }),
        }
    }
}
