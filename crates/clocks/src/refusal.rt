// Document 01, Refusal numbers, with those of document 02: each refusal by its name, and the number that stands for it in a line.
ghost use Rattle.std.specs.Prelude.{◌≡◌};
ghost use Rattle.clocks.specs.Refusals.{number_of, number_in};

// Why a call is refused.
#[derive(Clone, Copy, Debug, PartialEq, Eq)]
pub enum Refusal {
    BadOrigin,
    BadSequence,
    BadVector,
    Known,
    Late,
    Behind,
    NotClosed,
    Full,
    NotCritical,
    BadRange,
    Absent,
    OutOfTurn,
    Regressed,
    Gap,
    BadMask,
    NoRoom,
    BadCount,
    BadLine,
    MixedRevision,
    BadLength,
    Waiting,
    RoomFull,
}

impl From<Refusal> for usize {
    ghost from_gives = { λ refusal n. n ≡ number_of refusal };

    fn from(refusal: Refusal) -> usize {
        match refusal {
            Refusal::BadOrigin => 1,
            Refusal::BadSequence => 2,
            Refusal::BadVector => 3,
            Refusal::Known => 4,
            Refusal::Late => 5,
            Refusal::Behind => 6,
            Refusal::NotClosed => 7,
            Refusal::Full => 8,
            Refusal::NotCritical => 9,
            Refusal::BadRange => 10,
            Refusal::Absent => 11,
            Refusal::OutOfTurn => 12,
            Refusal::Regressed => 13,
            Refusal::Gap => 14,
            Refusal::BadMask => 15,
            Refusal::NoRoom => 16,
            Refusal::BadCount => 17,
            Refusal::BadLine => 18,
            Refusal::MixedRevision => 19,
            Refusal::BadLength => 20,
            Refusal::Waiting => 21,
            Refusal::RoomFull => 22,
        }
    }
}

// What a line says of an answer: 0 where it is no refusal.
pub fn number_in<T: Copy>(answer: Result<T, Refusal>) -> usize
    ensures { result ≡ number_in answer }
{
    match answer {
        Ok(_) => 0,
        Err(refusal) => usize::from(refusal),
    }
}
