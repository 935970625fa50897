// `r.waiting`. A list is of slots, and each is told as the id in it.
use clocks::refusal::Refusal;
use probe_text::answers::{Answer, Output};
use probe_text::arguments::Arguments;
use probe_text::lent::{ListCall, listed};
use room::Rows;
use room::waiting_room::WaitingRoom;

// The list of a room.
#[derive(Clone, Copy)]
struct Listing<'a> {
    waiting: &'a WaitingRoom,
    rows: &'a Rows,
}

impl ListCall for Listing<'_> {
    fn call(&self, list: &mut [usize]) -> Result<usize, Refusal> {
        self.waiting.waiting(self.rows, list)
    }

    fn entry(&self, k: usize) -> Answer {
        Answer::Id(self.waiting.id_at(k, self.rows))
    }
}

pub fn told(
    waiting: &WaitingRoom,
    arguments: Arguments,
    room: usize,
    out: &mut Output,
    rows: &Rows,
) {
    match arguments.end() {
        Ok(()) => listed(&Listing { waiting, rows }, room, out),
        Err(refusal) => out.told(Err(refusal), false),
    }
}
