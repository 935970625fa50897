// A line of the listing program, read into one of its eight commands. Document 01, The listing program, and document 02, P3.
ghost use Rattle.std.specs.Prelude.{◌≡◌, length};
ghost use Rattle.listing.specs.Commands.{Tells, append_line, by_word, line_told};
ghost use Rattle.listing.specs.Inner.{up_to_end};

use crate::fields::{read_vector, spaced_id, spaced_note, spaced_number};
use clocks::event::Event;
use clocks::id::EventId;
use clocks::vector::Seq;
use text::bytes::{find_byte, same};

// The most bytes before a newline.
pub const LONGEST_LINE: usize = 512;

// A vector stands in the buffer that is lent beside the line; its case says how many entries it has.
#[derive(Clone, Copy, Debug, PartialEq, Eq)]
pub enum Command {
    // R.
    Replicas(usize),
    // The event, and its version.
    Append(Event, usize),
    // The bound.
    Greatest(usize),
    // The frontier.
    Check(usize),
    // The bound.
    Advance(usize),
    Remove(EventId),
    Sheet,
    // The length.
    Why(usize),
}

// What was read, where the line ends behind it.
fn up_to_end<T: Copy>(s: &[u8], read: Option<(T, usize)>) -> Option<T>
    ensures { result ≡ up_to_end s.now read }
{
    let (value, next) = read?;
    if s.len() <= next { Some(value) } else { None }
}

// append O S D L P REV v..
#[tactic(auto, unfolding(crate::specs::Commands::append_line, crate::specs::Commands::vector_line))]
fn append_line(s: &[u8], at: usize, vector: &mut [Seq]) -> Option<Command>
    ensures { Tells (append_line (length vector.old) s.now at) vector.old vector.new result }
{
    let (event, next) = spaced_note(s, at)?;
    let n = read_vector(s, next, vector)?;
    Some(Command::Append(event, n))
}

// By the line's first word.
#[tactic(auto, unfolding(crate::specs::Commands::by_word, crate::specs::Commands::numbered_line, crate::specs::Commands::remove_line, crate::specs::Commands::sheet_line, crate::specs::Commands::vector_line, crate::specs::Words::same_bytes, crate::specs::Words::bytes))]
fn by_word(s: &[u8], word: &[u8], vector: &mut [Seq]) -> Option<Command>
    ensures { Tells (by_word (length vector.old) s.now word.now) vector.old vector.new result }
{
    let at = word.len();
    if same(word, b"replicas") {
        return up_to_end(s, spaced_number(s, at)).map(|r| Command::Replicas(r as usize));
    }
    if same(word, b"append") {
        return append_line(s, at, vector);
    }
    if same(word, b"greatest") {
        return read_vector(s, at, vector).map(Command::Greatest);
    }
    if same(word, b"check") {
        return read_vector(s, at, vector).map(Command::Check);
    }
    if same(word, b"advance") {
        return read_vector(s, at, vector).map(Command::Advance);
    }
    if same(word, b"remove") {
        return up_to_end(s, spaced_id(s, at)).map(Command::Remove);
    }
    if same(word, b"sheet") {
        return up_to_end(s, Some((Command::Sheet, at)));
    }
    if same(word, b"why") {
        return up_to_end(s, spaced_number(s, at)).map(|n| Command::Why(n as usize));
    }
    None
}

// What a line says; bytes that are no line say nothing. Its vector's entries are written from the lent buffer's start; the rest keeps its values.
#[tactic(auto, unfolding(crate::specs::Commands::line_told))]
pub fn read_line(line: &[u8], vector: &mut [Seq]) -> Option<Command>
    ensures { Tells (line_told (length vector.old) line.now) vector.old vector.new result }
{
    if LONGEST_LINE < line.len() {
        return None;
    }
    // Where the first word ends: at the first space, or at the line's end.
    let end = find_byte(line, 0, b' ');
    by_word(line, &line[..end], vector)
}
