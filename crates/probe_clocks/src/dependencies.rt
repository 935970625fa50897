// `c.dependencies O V`, the list call of the clocks. Its two buffers are filled with a pattern first.
use crate::vectors::placed;
use clocks::id::EventId;
use clocks::refusal::Refusal;
use clocks::replica::ReplicaIdx;
use clocks::version_vector::Version;
use probe_text::answers::{Answer, Output};
use probe_text::arguments::Arguments;
use probe_text::lent::{MOST_ROOM, PATTERN, is_kept, written};

pub fn listed(replicas: Option<usize>, room: usize, arguments: Arguments, out: &mut Output) {
    match version(replicas, arguments) {
        Ok(version) => lent(version, room, out),
        Err(refusal) => out.told(Err(refusal), false),
    }
}

fn version(replicas: Option<usize>, arguments: Arguments) -> Result<Version, Refusal> {
    let r = replicas.ok_or(Refusal::BadLine)?;
    let (origin, frontier) = placed(r, arguments)?;
    Ok(Version::from_frontier(frontier, origin))
}

// The call with two buffers of `room` entries, and the ids that it wrote.
fn lent(version: Version, room: usize, out: &mut Output) {
    let mut replicas = [PATTERN; MOST_ROOM];
    let mut seqs = [PATTERN; MOST_ROOM];
    let room = room.min(MOST_ROOM);
    let replicas = &mut replicas[..room];
    let seqs = &mut seqs[..room];
    let count = version.dependencies(replicas, seqs);
    let (replicas, replicas_behind) = written(replicas, count);
    let (seqs, seqs_behind) = written(seqs, count);
    out.begun(count);
    for (idx, seq) in replicas.iter().zip(seqs) {
        out.answer(Answer::Id(EventId::new(ReplicaIdx(*idx), *seq)));
    }
    out.ended(!(is_kept(replicas_behind) && is_kept(seqs_behind)));
}
