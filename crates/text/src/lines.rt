// Lines that arrive in pieces. The caller lends a buffer as long as the longest line; the state between pieces is a value.
ghost use Rattle.std.specs.Prelude.{◌≡◌, false};
ghost use Rattle.text.specs.Lines.{held_after, Took};

use crate::bytes::{find_byte, put, tail};

// What the line buffer holds: so many bytes of the current line, or the first of a line that is longer than the buffer.
// A flag beside the number, and no variant: an overlong line fills the buffer, so both count on with one sum.
#[derive(Clone, Copy, Debug, PartialEq, Eq)]
pub struct Held {
    pub len: usize,
    pub overlong: bool,
}

// What a piece gave: the state, the place to go on at, and whether the line came to its newline. A plain truth value: nothing is there or not by it.
#[derive(Clone, Copy, Debug, PartialEq, Eq)]
pub struct Taken {
    pub held: Held,
    pub next: usize,
    pub complete: bool,
}

// The state before a line's first byte.
pub fn fresh() -> Held
    ensures { result ≡ record { len = 0; overlong = false } }
{
    Held {
        len: 0,
        overlong: false,
    }
}

// The state after so many more bytes of the line.
fn settled(limit: usize, held: Held, count: usize) -> Held
    ensures { result ≡ held_after limit held count }
{
    match held.len.checked_add(count) {
        Some(len) if len <= limit => Held {
            len,
            overlong: held.overlong,
        },
        _ => Held {
            len: limit,
            overlong: true,
        },
    }
}

// The next part of the line, from `at` on in a piece of the input: stored as far as the buffer reaches, and passed over behind that.
pub fn feed(line: &mut [u8], held: Held, piece: &[u8], at: usize) -> Taken
    ensures { Took line.old held piece.now at line.new result }
{
    let limit = line.len();
    let end = find_byte(piece, at, b'\n');
    let after = settled(limit, held, end - at);
    let count = (end - at).min(limit.saturating_sub(held.len));
    put(line, held.len, &tail(piece, at)[..count]);
    if end < piece.len() {
        return Taken {
            held: after,
            next: end + 1,
            complete: true,
        };
    }
    Taken {
        held: after,
        next: end,
        complete: false,
    }
}
