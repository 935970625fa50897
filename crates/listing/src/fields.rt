// What stands behind the word of a line: numbers, ids and vectors, each after one space. Each reads from a place of the line, as the definitions do.
ghost use Rattle.std.specs.Prelude.{◌≡◌, length};
ghost use Rattle.laws.specs.Lists.{written};
ghost use Rattle.listing.specs.Commands.{spaced_number, spaced_tag, spaced_id, spaced_rest, spaced_note, most, entries, entries_end, vector_at};
ghost use Rattle.listing.specs.Inner.{behind_space};

use clocks::event::Event;
use clocks::id::{Disambiguator, EventId};
use clocks::replica::ReplicaIdx;
use clocks::vector::Seq;
use text::bytes::byte_at;
use text::number::read_number;

// The most entries that a line may give a vector.
const MOST_ENTRIES: usize = 16;

// The place behind a single space.
fn behind_space(s: &[u8], at: usize) -> Option<usize>
    ensures { result ≡ behind_space s.now at }
{
    if byte_at(s, at) == b' ' {
        Some(at + 1)
    } else {
        None
    }
}

// The number behind a single space, with the place behind it.
#[tactic(auto, unfolding(crate::specs::Commands::spaced_number))]
pub fn spaced_number(s: &[u8], at: usize) -> Option<(u64, usize)>
    ensures { result ≡ spaced_number s.now at }
{
    read_number(s, behind_space(s, at)?)
}

// D behind a single space. A number is below 2^32.
#[tactic(auto, unfolding(crate::specs::Commands::spaced_tag))]
fn spaced_tag(s: &[u8], at: usize) -> Option<(Disambiguator, usize)>
    ensures { result ≡ spaced_tag s.now at }
{
    let at = behind_space(s, at)?;
    if byte_at(s, at) == b'-' {
        return Some((Disambiguator::Absent, at + 1));
    }
    let (d, next) = read_number(s, at)?;
    let d = u32::try_from(d).ok()?;
    Some((Disambiguator::Number(d), next))
}

// O S D, each behind a single space.
#[tactic(auto, unfolding(crate::specs::Commands::spaced_id))]
pub fn spaced_id(s: &[u8], at: usize) -> Option<(EventId, usize)>
    ensures { result ≡ spaced_id s.now at }
{
    let (o, at) = spaced_number(s, at)?;
    let (q, at) = spaced_number(s, at)?;
    let (d, next) = spaced_tag(s, at)?;
    let id = EventId::new_with_disambiguator(ReplicaIdx(o as usize), q as usize, d);
    Some((id, next))
}

// L P REV behind an id, each behind a single space. A revision is below 2^32.
#[tactic(auto, unfolding(crate::specs::Commands::spaced_rest))]
fn spaced_rest(s: &[u8], at: usize, id: EventId) -> Option<(Event, usize)>
    ensures { result ≡ spaced_rest s.now at id }
{
    let (l, at) = spaced_number(s, at)?;
    let (p, at) = spaced_number(s, at)?;
    let (rev, next) = spaced_number(s, at)?;
    let rev = u32::try_from(rev).ok()?;
    Some((Event::new(id, l, p, rev), next))
}

// O S D L P REV, each behind a single space.
#[tactic(auto, unfolding(crate::specs::Commands::spaced_note))]
pub fn spaced_note(s: &[u8], at: usize) -> Option<(Event, usize)>
    ensures { result ≡ spaced_note s.now at }
{
    let (id, next) = spaced_id(s, at)?;
    spaced_rest(s, next, id)
}

// The numbers from a place on, written from the buffer's start: how many, and the place behind them.
fn read_entries(s: &[u8], from: usize, out: &mut [Seq]) -> (usize, usize)
    ensures value { result ≡ (length (entries (most (length out.old)) s.now from), entries_end (most (length out.old)) s.now from) }
    ensures out_after { out.new ≡ written (entries (most (length out.old)) s.now from) out.old }
{
    let limit = MOST_ENTRIES.min(out.len());
    let mut at = from;
    for (n, slot) in out[..limit].iter_mut().enumerate() {
        let Some((v, next)) = spaced_number(s, at) else {
            return (n, at);
        };
        *slot = v as usize;
        at = next;
    }
    (limit, at)
}

// How many entries the vector from a place to the line's end has.
#[tactic(auto, unfolding(crate::specs::Commands::vector_at))]
pub fn read_vector(s: &[u8], at: usize, out: &mut [Seq]) -> Option<usize>
    ensures value { result ≡ vector_at (length out.old) s.now at }
    ensures out_after { out.new ≡ written (entries (most (length out.old)) s.now at) out.old }
{
    let (n, next) = read_entries(s, at, out);
    if 0 < n && s.len() <= next {
        Some(n)
    } else {
        None
    }
}
