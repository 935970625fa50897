// The clock words that answer one value or one vector.
use crate::vectors::{both, frontier, placed};
use clocks::refusal::Refusal;
use clocks::replica::ReplicaIdx;
use clocks::version_vector::Version;
use probe_text::answers::Answer;
use probe_text::arguments::{Arguments, Sides};
use probe_text::line::Line;

pub fn asked(replicas: Option<usize>, line: Line) -> Result<Answer, Refusal> {
    let r = replicas.ok_or(Refusal::BadLine)?;
    let arguments = line.arguments;
    match line.word {
        b"c.entry" => entry(r, arguments),
        b"c.contains" => contains(r, arguments),
        b"c.sum" => sum(r, arguments),
        b"c.compare" => compare(r, arguments),
        b"c.includes" => includes(r, arguments),
        b"c.set" => set(r, arguments),
        b"c.increment" => increment(r, arguments),
        b"c.join" => join(r, arguments),
        b"c.meet" => meet(r, arguments),
        b"c.vjoin" => join_version(r, arguments),
        _ => Err(Refusal::BadLine),
    }
}

// `c.entry O V`
fn entry(r: usize, arguments: Arguments) -> Result<Answer, Refusal> {
    let (origin, frontier) = placed(r, arguments)?;
    Ok(Answer::Number(frontier.seq_by_idx(origin)))
}

// `c.contains ID V`
fn contains(r: usize, arguments: Arguments) -> Result<Answer, Refusal> {
    let (id, vector) = arguments.all()?;
    Ok(Answer::from(frontier(r, vector)?.contains(id)))
}

// `c.sum V`
fn sum(r: usize, arguments: Arguments) -> Result<Answer, Refusal> {
    let vector = arguments.all()?;
    Ok(Answer::Number(frontier(r, vector)?.sum()))
}

// `c.compare V | V`
fn compare(r: usize, arguments: Arguments) -> Result<Answer, Refusal> {
    let (left, right) = both(r, arguments)?;
    Ok(Answer::Compared(left.partial_cmp(right)))
}

// `c.includes V | V`. The comparison is of all entries, so any origin will do.
fn includes(r: usize, arguments: Arguments) -> Result<Answer, Refusal> {
    let (left, right) = both(r, arguments)?;
    let version = Version::from_frontier(left, ReplicaIdx(0));
    Ok(Answer::from(version.includes_frontier(right)))
}

// `c.set O X V`
fn set(r: usize, arguments: Arguments) -> Result<Answer, Refusal> {
    let (origin, seq, vector) = arguments.all()?;
    let mut frontier = frontier(r, vector)?;
    frontier.set_by_idx(origin, seq)?;
    Ok(Answer::from(frontier))
}

// `c.increment O V`
fn increment(r: usize, arguments: Arguments) -> Result<Answer, Refusal> {
    let (origin, frontier) = placed(r, arguments)?;
    let mut version = Version::from_frontier(frontier, origin);
    version.increment()?;
    Ok(Answer::from(version.frontier()))
}

// `c.join V | V`
fn join(r: usize, arguments: Arguments) -> Result<Answer, Refusal> {
    let (left, right) = both(r, arguments)?;
    Ok(Answer::from(left.join(right)))
}

// `c.meet V | V`
fn meet(r: usize, arguments: Arguments) -> Result<Answer, Refusal> {
    let (left, right) = both(r, arguments)?;
    Ok(Answer::from(left.meet(right)))
}

// `c.vjoin O V | P V`
fn join_version(r: usize, arguments: Arguments) -> Result<Answer, Refusal> {
    let Sides {
        left: (ours, left),
        right: (theirs, right),
    } = arguments.all()?;
    let mut version = Version::from_frontier(frontier(r, left)?, ours);
    version.join(Version::from_frontier(frontier(r, right)?, theirs))?;
    Ok(Answer::from(version.frontier()))
}
