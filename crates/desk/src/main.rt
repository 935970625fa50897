// The listing program: reads lines on standard input to its end, and prints the answer of each. What a line says stands in `listing`,
// what it does to the log and what is answered in `desk_log`; here the bytes come in and go out. The tables of the log are locals of `main`, and are lent all the way down.
#![tactic(auto)]

use desk_log::{LONGEST_ANSWER, Log, answer_line, refuse_line};
use graph::{COLUMNS, Pasts, Slots};
use listing::command::LONGEST_LINE;
use std::io::{Read, Stdin, Stdout, Write};
use text::buffer::Buffer;
use text::lines::{Held, feed, fresh};

// Writes what is collected, straight from its buffer. A write that takes nothing or fails ends it.
fn flush(mut stdout: Stdout, out: &mut Buffer) {
    let _ = stdout.write_all(out.collected());
    out.clear();
}

// Answers the line that is held; an overlong one is no line. The tables are lent one by one, as `answer_line` takes them.
fn answer_held(
    log: &mut Log,
    held: Held,
    line: &[u8],
    out: &mut Buffer,
    slots: &mut Slots,
    pasts: &mut Pasts,
) {
    match line.get(..held.len) {
        Some(text) if !held.overlong => answer_line(log, text, out, slots, pasts),
        _ => refuse_line(out),
    }
}

// Answers each line that ends in this piece. The answers are written before the next read, so whoever waits for one gets it.
fn answer_piece(
    stdout: Stdout,
    log: &mut Log,
    held: &mut Held,
    piece: &[u8],
    line: &mut [u8],
    out: &mut Buffer,
    slots: &mut Slots,
    pasts: &mut Pasts,
) {
    // From place to place, since `feed` takes up a line where the last piece left it.
    let mut i: usize = 0;
    while i < piece.len() {
        let taken = feed(line, *held, piece, i);
        i = taken.next;
        *held = taken.held;
        if taken.complete {
            if out.room() < LONGEST_ANSWER {
                flush(stdout, out);
            }
            answer_held(log, *held, line, out, slots, pasts);
            *held = fresh();
        }
    }
    flush(stdout, out);
}

// A proved loop has to end, and nothing says that the input does: the reads are counted up to a number that no run comes to.
fn run(
    mut stdin: Stdin,
    stdout: Stdout,
    input: &mut [u8],
    line: &mut [u8],
    out: &mut Buffer,
    slots: &mut Slots,
    pasts: &mut Pasts,
) {
    let mut log = Log::new();
    let mut held = fresh();
    for _ in 0..u64::MAX {
        // A read that fails ends the input too.
        let n = stdin.read(input).unwrap_or(0);
        if n == 0 {
            break;
        }
        answer_piece(
            stdout,
            &mut log,
            &mut held,
            &input[..n],
            line,
            out,
            slots,
            pasts,
        );
    }
    // The newline that a last line may lack.
    if held != fresh() {
        answer_piece(stdout, &mut log, &mut held, b"\n", line, out, slots, pasts);
    }
}

fn main(rt: HostRuntime) {
    let mut input = [0u8; 65_536];
    let mut line = [0u8; LONGEST_LINE];
    // The answers to a piece of the input, as far as they are not written.
    let mut answers = [0u8; 65_536];
    let mut out = Buffer {
        bytes: &mut answers,
        len: 0,
    };
    let mut slots = [[0usize; 256]; COLUMNS];
    let mut pasts = [0u64; 1024];
    run(
        rt.stdin(),
        rt.stdout(),
        &mut input,
        &mut line,
        &mut out,
        &mut slots,
        &mut pasts,
    );
}
