// What stands behind a word, each part after one space: decimals, `-` and `|`. It is read from the left, and each call takes what it answers off the front, or finds that the line is none.
use clocks::event::Event;
use clocks::id::{Disambiguator, EventId};
use clocks::refusal::Refusal;
use clocks::replica::ReplicaIdx;
use clocks::vector::DESKS;
use numbers::size;
use text::number::read_number;

// At most 16 numbers.
#[derive(Clone, Copy, Debug, PartialEq, Eq)]
pub struct Vector {
    entries: [usize; DESKS],
    len: usize,
}

impl Vector {
    pub fn entries(&self) -> &[usize] {
        self.entries.get(..self.len).unwrap_or(&[])
    }
}

// The first 16 numbers.
impl From<&[usize]> for Vector {
    fn from(row: &[usize]) -> Vector {
        let mut entries = [0; DESKS];
        for (entry, n) in entries.iter_mut().zip(row) {
            *entry = *n;
        }
        Vector {
            entries,
            len: row.len().min(DESKS),
        }
    }
}

// The text that is not read yet.
#[derive(Clone, Copy, Debug, PartialEq, Eq)]
pub struct Arguments<'a> {
    rest: &'a [u8],
}

// What may stand behind a word.
pub trait Argument: Copy {
    fn read(arguments: &mut Arguments) -> Result<Self, Refusal>;
}

impl<'a> Arguments<'a> {
    pub fn new(text: &'a [u8]) -> Arguments<'a> {
        Arguments { rest: text }
    }

    // A dash or a bar, where it is the next.
    fn mark(&mut self, mark: u8) -> Result<(), Refusal> {
        match self.rest {
            [b' ', first, rest @ ..] if *first == mark => {
                self.rest = rest;
                Ok(())
            }
            _ => Err(Refusal::BadLine),
        }
    }

    // Nothing more stands there.
    pub fn end(self) -> Result<(), Refusal> {
        if self.rest.is_empty() {
            return Ok(());
        }
        Err(Refusal::BadLine)
    }

    // All that stands there.
    pub fn all<T: Argument>(mut self) -> Result<T, Refusal> {
        let value = T::read(&mut self)?;
        self.end()?;
        Ok(value)
    }

    // All that is left, as a mask.
    pub fn mask(self) -> Result<Mask<'a>, Refusal> {
        let mut left = self;
        // At most once for each byte: every number takes two at least.
        for _ in self.rest {
            if left.rest.is_empty() {
                break;
            }
            u8::read(&mut left)?;
        }
        Ok(Mask { numbers: self })
    }
}

// A decimal.
impl Argument for usize {
    fn read(arguments: &mut Arguments) -> Result<usize, Refusal> {
        let [b' ', digits @ ..] = arguments.rest else {
            return Err(Refusal::BadLine);
        };
        let (n, next) = read_number(digits, 0).ok_or(Refusal::BadLine)?;
        arguments.rest = digits.get(next..).unwrap_or(&[]);
        Ok(size(n))
    }
}

// A number below 2^32.
impl Argument for u32 {
    fn read(arguments: &mut Arguments) -> Result<u32, Refusal> {
        u32::try_from(usize::read(arguments)?).map_err(|_| Refusal::BadLine)
    }
}

// A number below 256.
impl Argument for u8 {
    fn read(arguments: &mut Arguments) -> Result<u8, Refusal> {
        u8::try_from(usize::read(arguments)?).map_err(|_| Refusal::BadLine)
    }
}

impl Argument for ReplicaIdx {
    fn read(arguments: &mut Arguments) -> Result<ReplicaIdx, Refusal> {
        Ok(ReplicaIdx(usize::read(arguments)?))
    }
}

// A number below 2^32 or a dash.
impl Argument for Disambiguator {
    fn read(arguments: &mut Arguments) -> Result<Disambiguator, Refusal> {
        if arguments.mark(b'-').is_ok() {
            return Ok(Disambiguator::Absent);
        }
        Ok(Disambiguator::Number(u32::read(arguments)?))
    }
}

impl Argument for EventId {
    fn read(arguments: &mut Arguments) -> Result<EventId, Refusal> {
        let (idx, seq, disambiguator) = <(ReplicaIdx, usize, Disambiguator)>::read(arguments)?;
        Ok(EventId::new_with_disambiguator(idx, seq, disambiguator))
    }
}

// An id, a Lamport number, a payload and a revision.
impl Argument for Event {
    fn read(arguments: &mut Arguments) -> Result<Event, Refusal> {
        let (id, lamport, op) = <(EventId, usize, usize)>::read(arguments)?;
        let revision = u32::read(arguments)?;
        Ok(Event::new(id, lamport as u64, op as u64, revision))
    }
}

// All numbers up to a bar or the end, 1 to 16.
impl Argument for Vector {
    fn read(arguments: &mut Arguments) -> Result<Vector, Refusal> {
        let mut entries = [0; DESKS];
        entries[0] = usize::read(arguments)?;
        for (i, entry) in entries.iter_mut().enumerate().skip(1) {
            let Ok(n) = usize::read(arguments) else {
                return Ok(Vector { entries, len: i });
            };
            *entry = n;
        }
        Ok(Vector {
            entries,
            len: DESKS,
        })
    }
}

impl<A: Argument, B: Argument> Argument for (A, B) {
    fn read(arguments: &mut Arguments) -> Result<(A, B), Refusal> {
        Ok((A::read(arguments)?, B::read(arguments)?))
    }
}

impl<A: Argument, B: Argument, C: Argument> Argument for (A, B, C) {
    fn read(arguments: &mut Arguments) -> Result<(A, B, C), Refusal> {
        Ok((
            A::read(arguments)?,
            B::read(arguments)?,
            C::read(arguments)?,
        ))
    }
}

// The same on both sides of the bar.
#[derive(Clone, Copy, Debug, PartialEq, Eq)]
pub struct Sides<T> {
    pub left: T,
    pub right: T,
}

impl<T: Argument> Argument for Sides<T> {
    fn read(arguments: &mut Arguments) -> Result<Sides<T>, Refusal> {
        let left = T::read(arguments)?;
        arguments.mark(b'|')?;
        let right = T::read(arguments)?;
        Ok(Sides { left, right })
    }
}

// A line of 4,096 bytes has no more numbers behind its word: each takes two bytes at least.
pub const MOST_MASK: usize = 2048;

// Numbers below 256, which are read once more when their bytes are asked for.
#[derive(Clone, Copy, Debug, PartialEq, Eq)]
pub struct Mask<'a> {
    numbers: Arguments<'a>,
}

impl Mask<'_> {
    // The numbers as bytes, from the table's start on and as far as it has room.
    pub fn bytes<'m>(mut self, table: &'m mut [u8]) -> &'m [u8] {
        let mut len = 0;
        for (i, byte) in table.iter_mut().enumerate() {
            let Ok(n) = u8::read(&mut self.numbers) else {
                break;
            };
            *byte = n;
            len = i + 1;
        }
        table.get(..len).unwrap_or(&[])
    }
}
