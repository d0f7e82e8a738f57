// A line of the sheet: what it says of an input, what was got, and whether that is what the sheet states.
use crate::text::{Room, empty, part_of, put, put_hex, put_number, put_refusal};
use refusal::Refusal;
use std::io;
use std::io::Stdout;

// Where the lines are printed, how many were run, and how many of them gave what the sheet states.
#[derive(Clone, Copy)]
pub(crate) struct Score {
    pub(crate) to: Stdout,
    pub(crate) lines: u64,
    pub(crate) good: u64,
}

// The start of a line: words, an input, and words again.
pub(crate) fn put_said(text: &mut Room, before: &[u8], input: &[u8], after: &[u8]) -> usize {
    let word = put(text, 0, before);
    let bytes = put_hex(text, word, input);
    put(text, bytes, after)
}

// What a call wrote into a lent output.
pub(crate) fn put_written(
    text: &mut Room,
    at: usize,
    written: Result<usize, Refusal>,
    out: &Room,
) -> usize {
    match written {
        Ok(k) => put_hex(text, at, part_of(out, 0, k)),
        Err(r) => put_refusal(text, at, r),
    }
}

fn put_verdict(text: &mut Room, at: usize, good: bool, stated: &[u8]) -> usize {
    if good {
        return put(text, at, b", as stated\n");
    }
    let word = put(text, at, b", NOT as stated: ");
    let end = put(text, word, stated);
    put(text, end, b"\n")
}

fn print(to: Stdout, text: &Room, end: usize) -> io::Result<()> {
    to.write_all(part_of(text, 0, end))
}

// Ends a line, whose text from start up to end is what was got, and prints it.
pub(crate) fn judge(
    score: Score,
    text: &mut Room,
    start: usize,
    end: usize,
    stated: &[u8],
) -> io::Result<Score> {
    let good = part_of(text, start, end) == stated;
    let last = put_verdict(text, end, good, stated);
    print(score.to, text, last)?;
    Ok(Score {
        to: score.to,
        lines: score.lines.wrapping_add(1),
        good: score.good.wrapping_add(u64::from(good)),
    })
}

// The last line.
pub(crate) fn total(score: Score) -> io::Result<()> {
    let mut text = empty();
    let good = put_number(&mut text, 0, b"", score.good);
    let lines = put_number(&mut text, good, b" of ", score.lines);
    let last = put(&mut text, lines, b" lines as stated\n");
    print(score.to, &text, last)
}
