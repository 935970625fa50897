// A line as a word and what stands behind it.
use crate::arguments::Arguments;

// A line taken apart.
#[derive(Clone, Copy, Debug, PartialEq, Eq)]
pub struct Line<'a> {
    pub word: &'a [u8],
    pub arguments: Arguments<'a>,
}

// The line's word ends at the first space.
pub fn parse(line: &[u8]) -> Line<'_> {
    let end = line.iter().position(|b| *b == b' ').unwrap_or(line.len());
    let (word, rest) = line.split_at(end);
    Line {
        word,
        arguments: Arguments::new(rest),
    }
}
