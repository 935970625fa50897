// One word of 64 bits of a set. Each function says what it does to every bit, so that casts and shifts are dealt with here alone.
ghost use Rattle.std.specs.Prelude.{◌≡◌, not, ◌&&◌, ◌||◌, ℕ, ◌<◌, ◌≤◌, get_or, ltb, eqb};
ghost use Rattle.positions.specs.Bits.{is_one, bit};
ghost use Rattle.positions.specs.Inner.{LowZero, BitLength};
ghost use Rattle.laws.specs.Counting.{count_below};

// Sets the bit `k` where the digit `d` is 1, with no branch.
pub(super) fn with_digit(w: u64, d: u64, k: usize) -> u64
    requires { (d < 2) × (k < 64) }
    ensures { (j : ℕ) → bit result j ≡ (bit w j || (is_one d && eqb j k)) }
{
    w | (d << k)
}

// The bits below `n`.
pub fn below(w: u64, n: usize) -> u64
    ensures { (j : ℕ) → j < 64 → bit result j ≡ (bit w j && ltb j n) }
{
    if n < 64 { w & ((1u64 << n) - 1) } else { w }
}

// The bits of `w` that `v` lacks.
pub fn without(w: u64, v: u64) -> u64
    ensures { (j : ℕ) → j < 64 → bit result j ≡ (bit w j && not (bit v j)) }
{
    w & !v
}

// The word `j`; beyond the four words there are only zeros.
pub fn at(words: &[u64; 4], j: usize) -> u64
    ensures { result ≡ get_or words.now j 0 }
{
    words.get(j).copied().unwrap_or(0)
}

pub fn ones(w: u64) -> usize
    ensures { (result ≡ count_below (bit w) 64) × (result ≤ 64) }
{
    w.count_ones() as usize
}

pub fn low_zero(w: u64) -> usize
    ensures { LowZero w result }
{
    (!w).trailing_zeros() as usize
}

pub fn bit_length(w: u64) -> usize
    ensures { BitLength w result }
{
    64 - w.leading_zeros() as usize
}
