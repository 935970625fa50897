// Bytes in lent buffers: one byte read or looked for, bytes put at a place, and two runs of bytes compared.
ghost use Rattle.std.specs.Prelude.{◌≡◌, ◌==◌, ◌+◌, get_or, drop, position};
ghost use Rattle.text.specs.Bytes.{Same, placed, placed_end, bytes_before};

// The byte at a place; 0 past the end.
pub fn byte_at(s: &[u8], at: usize) -> u8
    ensures { result ≡ get_or s.now at 0 }
{
    s.get(at).copied().unwrap_or(0)
}

// The bytes from a place on.
pub(crate) fn tail(s: &[u8], at: usize) -> &[u8]
    ensures { result.now ≡ drop at s.now }
{
    s.get(at..).unwrap_or(&[])
}

// The place of the first such byte from `at` on, or the end: callers go up to it.
pub fn find_byte(s: &[u8], at: usize, b: u8) -> usize
    ensures { result ≡ at + bytes_before b (drop at s.now) }
{
    let rest = tail(s, at);
    at + place_of(rest, b).unwrap_or(rest.len())
}

fn place_of(s: &[u8], b: u8) -> Option<usize>
    ensures { result ≡ position (λ c. c == b) s.now }
{
    s.iter().position(|c| *c == b)
}

// The bytes from this place on, with the place behind them. Where they do not fit nothing changes and the place stays, so whoever collects goes on there.
pub fn put(out: &mut [u8], at: usize, bytes: &[u8]) -> usize
    ensures value { result ≡ placed_end out.old at bytes.now }
    ensures out_after { out.new ≡ placed out.old at bytes.now }
{
    match at.checked_add(bytes.len()) {
        Some(end) if end <= out.len() => {
            out[at..end].copy_from_slice(bytes);
            end
        }
        _ => at,
    }
}

// Whether both are the same bytes.
pub fn same(a: &[u8], b: &[u8]) -> bool
    ensures { Same a.now b.now result }
{
    a == b
}
