// Lines: read from standard input as they come, each answered, the answers written many at a time.
ghost use Rattle.std.specs.Prelude.{◌≤◌, length, IfOk};

use crate::calls::{LONGEST_LINE, put_call};
use crate::requests::until;
use crate::rooms::Lent;
use crate::texts::{Room, part_of, put_byte, put_text};
use std::io;
use std::io::{Read, Stdin, Stdout};

// The answer line.
fn put_line(line: &[u8], arena: &mut Room, out: &mut Lent, text: &mut Room, at: usize) -> usize {
    let end = put_call(line, arena, out, text, at);
    if end == at {
        return put_text(text, at, b"bad request\n");
    }
    put_byte(text, end, b'\n')
}

// Writes the text up to a place.
fn flush(to: Stdout, text: &[u8], at: usize) -> io::Result<()> {
    to.write_all(part_of(text, 0, at.min(text.len())))
}

// Writes the text if it is more than half full, so that every answer has room. The place where it goes on.
fn flush_half(to: Stdout, text: &[u8], at: usize) -> io::Result<usize> {
    if at > text.len() / 2 {
        flush(to, text, at)?;
        return Ok(0);
    }
    Ok(at)
}

// Answers each line of s, the last one also where it has no newline.
fn put_lines(
    to: Stdout,
    s: &[u8],
    arena: &mut Room,
    out: &mut Lent,
    text: &mut Room,
) -> io::Result<()> {
    let mut at = 0;
    let mut start = 0;
    while start < s.len() {
        let end = start + until(&s[start..], b'\n');
        let next = put_line(&s[start..end], arena, out, text, at);
        at = flush_half(to, text, next)?;
        start = end + 1;
    }
    flush(to, text, at)
}

// Reads once behind the first `kept` bytes of input. How many bytes are there now: as many as before at the end of the input.
fn read_more(mut from: Stdin, input: &mut [u8], kept: usize) -> io::Result<usize>
    requires { kept ≤ length input.old }
    ensures lower_bound { IfOk result (λ n. kept ≤ n) }
    ensures result_bound { IfOk result (λ n. n ≤ length input.old) }
{
    let got = from.read(&mut input[kept..])?;
    Ok(kept + got)
}

// How much of s is to be answered now: up to its last newline, or all where nothing is new behind the bytes that were kept.
fn whole_lines(s: &[u8], kept: usize) -> usize
    ensures { result ≤ length s.now }
{
    if s.len() == kept {
        return kept;
    }
    match s.iter().rposition(|b| *b == b'\n') {
        Some(i) => i + 1,
        None => 0,
    }
}

// Moves the bytes from `start` up to `end`, which begin a line, to the front; of a line that is too long no more than makes it too long,
// so that it is answered once, as one bad request. How many they are.
fn to_front(s: &mut [u8], start: usize, end: usize) -> usize
    requires start_le_end { start ≤ end }
    requires end_bound { end ≤ length s.old }
{
    let n = (end - start).min(LONGEST_LINE + 1);
    s.copy_within(start..start + n, 0);
    n
}

// Reads once, and answers each line that is whole. How many bytes are kept, which begin a line; more than input has where it has ended.
fn take_turn(
    from: Stdin,
    to: Stdout,
    input: &mut [u8],
    kept: usize,
    arena: &mut Room,
    out: &mut Lent,
    text: &mut Room,
) -> io::Result<usize>
    requires { kept ≤ length input.old }
{
    let end = read_more(from, input, kept)?;
    let whole = whole_lines(&input[0..end], kept);
    put_lines(to, &input[0..whole], arena, out, text)?;
    if end == kept {
        return Ok(usize::MAX);
    }
    Ok(to_front(input, whole, end))
}

// Answers every line of the standard input. Nothing says that an input ends, so the turns are counted, to 2^64 - 1.
pub(crate) fn answer_all(
    from: Stdin,
    to: Stdout,
    input: &mut [u8],
    arena: &mut Room,
    out: &mut Lent,
    text: &mut Room,
) -> io::Result<()> {
    let mut kept: usize = 0;
    for _ in 0..u64::MAX {
        let next = take_turn(from, to, input, kept, arena, out, text)?;
        if next > input.len() {
            return Ok(());
        }
        kept = next;
    }
    Ok(())
}
