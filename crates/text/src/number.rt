// Decimals without sign or leading zeros, below 2^64.
ghost use Rattle.std.specs.Prelude.{◌≡◌, ◌+◌, ◌≤◌, length};
ghost use Rattle.text.specs.Numbers.{number_at, spelled};
ghost use Rattle.text.specs.Inner.{digit_of, run_of, plain_run, written_back};
ghost use Rattle.text.specs.Bytes.{placed, placed_end};

use crate::bytes::{byte_at, tail};

// The digit's value, of a digit.
fn digit(b: u8) -> Option<u64>
    ensures { result ≡ digit_of b }
{
    match b {
        b'0'..=b'9' => Some(u64::from(b - b'0')),
        _ => None,
    }
}

// The digits that the bytes start with: the number that they make, where it is below 2^64, and how many they are.
fn run_of_digits(s: &[u8]) -> Option<(u64, usize)>
    ensures { result ≡ run_of s.now }
{
    let mut n: u64 = 0;
    for (i, b) in s.iter().enumerate() {
        let Some(d) = digit(*b) else {
            return Some((n, i));
        };
        n = n.checked_mul(10)?.checked_add(d)?;
    }
    Some((n, s.len()))
}

// Whether so many digits, with this one in front, are one or more, and no 0 before another.
fn is_plain(count: usize, first: u8) -> bool
    ensures { result ≡ plain_run count first }
{
    0 < count && (count == 1 || first != b'0')
}

// The number at a place, with the place behind it: the longest run of digits there.
pub fn read_number(s: &[u8], at: usize) -> Option<(u64, usize)>
    ensures { result ≡ number_at s.now at }
{
    let (n, count) = run_of_digits(tail(s, at))?;
    if is_plain(count, byte_at(s, at)) {
        Some((n, at + count))
    } else {
        None
    }
}

// How many digits a number has.
fn places(n: u64) -> usize
    ensures { result ≡ Rattle.text.specs.Numbers.places n }
{
    let mut k: usize = 1;
    let mut rest = n;
    // Digits are counted, and no slice is walked.
    while 9 < rest {
        rest /= 10;
        k += 1;
    }
    k
}

// The last digits of a number, so many of them, from a place on. The last is written first, so none waits for another.
fn write_back(out: &mut [u8], at: usize, k: usize, n: u64)
    requires { at + k ≤ length out.old }
    ensures { out.new ≡ written_back out.old at k n }
{
    let mut rest = n;
    // By place: of what `iter_mut().rev()` wrote a proof knows the length alone.
    for j in (0..k).rev() {
        out[at + j] = b'0' + (rest % 10) as u8;
        rest /= 10;
    }
}

// The digits of a number from this place on, with the place behind them. Where they do not fit nothing changes and the place stays.
pub fn write_number(out: &mut [u8], at: usize, n: u64) -> usize
    ensures value { result ≡ placed_end out.old at (spelled n) }
    ensures out_after { out.new ≡ placed out.old at (spelled n) }
{
    let k = places(n);
    match at.checked_add(k) {
        Some(end) if end <= out.len() => {
            write_back(out, at, k, n);
            end
        }
        _ => at,
    }
}
