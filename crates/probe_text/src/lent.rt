// Lent buffers and tables: filled before a call, and looked at after it.
use crate::answers::{Answer, Output};
use clocks::refusal::Refusal;

// What a buffer is filled with before a call: no call answers it.
pub const PATTERN: usize = 0xA5A5_5A5A_0F0F_3C3C;

// The most entries of a lent buffer.
pub const MOST_ROOM: usize = 1024;

// Whether a buffer still has the pattern.
pub fn is_kept(list: &[usize]) -> bool {
    list.iter().all(|n| *n == PATTERN)
}

// An entry of a table, as a number.
pub trait Word {
    fn word(&self) -> u64;
}

impl Word for u16 {
    fn word(&self) -> u64 {
        u64::from(*self)
    }
}

impl Word for u64 {
    fn word(&self) -> u64 {
        *self
    }
}

impl Word for usize {
    fn word(&self) -> u64 {
        *self as u64
    }
}

// A row.
impl<const N: usize> Word for [usize; N] {
    fn word(&self) -> u64 {
        digest(self)
    }
}

// A number that tells two contents of a table apart.
pub fn digest<T: Word>(table: &[T]) -> u64 {
    table
        .iter()
        .fold(1, |h: u64, x| h.rotate_left(7) ^ x.word())
}

// What a list call wrote into the buffer, and the rest. Where it refused it is to have written nothing.
pub fn written(list: &[usize], count: Result<usize, Refusal>) -> (&[usize], &[usize]) {
    list.split_at(count.unwrap_or(0).min(list.len()))
}

// A list call that can be made, and what each entry that it writes stands for.
pub trait ListCall {
    fn call(&self, list: &mut [usize]) -> Result<usize, Refusal>;

    fn entry(&self, k: usize) -> Answer;
}

// The call with a buffer of `room` entries, and each entry that it wrote as the answer that it stands for.
pub fn listed<C: ListCall>(asked: &C, room: usize, out: &mut Output) {
    let mut list = [PATTERN; MOST_ROOM];
    let list = &mut list[..room.min(MOST_ROOM)];
    let count = asked.call(list);
    let (entries, rest) = written(list, count);
    out.begun(count);
    for k in entries {
        out.answer(asked.entry(*k));
    }
    out.ended(!is_kept(rest));
}
