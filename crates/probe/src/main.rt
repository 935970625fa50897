// Reads test lines from standard input and prints an answer line for each: every call of the libraries, one word each.
// It decides nothing by itself. It takes a line apart, makes the call, and prints the refusal number or 0 and what came back.
#![tactic(auto)]

mod state;

use graph::COLUMNS;
use probe_text::answers::Output;
use state::{State, Tables};
use std::io::{Read, Stdin, Stdout, Write};
use text::buffer::Buffer;
use text::lines::{Held, feed, fresh};

// A piece of the input.
type Piece = [u8; 65_536];

// A line may have 4,096 bytes before its newline.
type Line = [u8; 4096];

// An answer has room: a list of 512 events takes 67 bytes each at most.
const LONGEST_ANSWER: usize = 40_960;

// Writes what is collected. A write that fails ends it.
fn flush(mut stdout: Stdout, out: &mut Output) {
    let _ = stdout.write_all(out.buffer.collected());
    out.buffer.clear();
}

// Answers the line that is held. An overlong one is no line, as an empty one is none.
fn answer_held(state: &mut State, held: Held, line: &Line, out: &mut Output, tables: &mut Tables) {
    let text = match line.get(..held.len) {
        Some(text) if !held.overlong => text,
        _ => &[],
    };
    state.answer(text, out, tables);
}

// Answers each line that ends in this piece, and hands back what is held of the next. The answers are written before the next read, so whoever waits for one gets it.
fn answer_piece(
    stdout: Stdout,
    state: &mut State,
    mut held: Held,
    piece: &[u8],
    line: &mut Line,
    out: &mut Output,
    tables: &mut Tables,
) -> Held {
    for part in piece.split_inclusive(|b| *b == b'\n') {
        let taken = feed(line, held, part, 0);
        held = taken.held;
        if taken.complete {
            if out.buffer.room() < LONGEST_ANSWER {
                flush(stdout, out);
            }
            answer_held(state, held, line, out, tables);
            held = fresh();
        }
    }
    flush(stdout, out);
    held
}

// A proved loop has to end, and nothing says that the input does: the reads are counted up to a number that no run comes to.
fn run(
    mut stdin: Stdin,
    stdout: Stdout,
    input: &mut Piece,
    line: &mut Line,
    out: &mut Output,
    tables: &mut Tables,
) {
    let mut state = State::new();
    let mut held = fresh();
    for _ in 0..u64::MAX {
        // A read that fails ends the input too.
        let len = stdin.read(input).unwrap_or(0);
        if len == 0 {
            break;
        }
        let piece = input.get(..len).unwrap_or(&[]);
        held = answer_piece(stdout, &mut state, held, piece, line, out, tables);
    }
    // The newline that a last line may lack.
    if held != fresh() {
        answer_piece(stdout, &mut state, held, b"\n", line, out, tables);
    }
}

fn main(rt: HostRuntime) {
    let mut input = [0u8; 65_536];
    let mut line = [0u8; 4096];
    let mut index = [0u16; 8192];
    let mut versions = [0; 8192];
    let mut notes = [0u64; 2560];
    let mut boundaries = [0; 256];
    let mut slots = [[0; 256]; COLUMNS];
    let mut pasts = [0u64; 1024];
    let mut waiting = [[0; 22]; 65];
    let mut answers = [0u8; 65_536];
    let mut out = Output {
        buffer: Buffer {
            bytes: &mut answers,
            len: 0,
        },
    };
    let mut tables = Tables {
        graph: probe_graph::Tables {
            slots: &mut slots,
            pasts: &mut pasts,
        },
        history: probe_history::Tables {
            index: &mut index,
            versions: &mut versions,
            notes: &mut notes,
            boundaries: &mut boundaries,
        },
        waiting: &mut waiting,
    };
    run(
        rt.stdin(),
        rt.stdout(),
        &mut input,
        &mut line,
        &mut out,
        &mut tables,
    );
}
