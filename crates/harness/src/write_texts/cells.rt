// Parts of a line: the rows of a field, and the cells of a row.
use crate::requests::{Span, number_of, until};
use crate::texts::part_of;

// The bytes of a part.
pub(crate) fn word_of<'a>(line: &'a [u8], s: Span) -> &'a [u8] {
    part_of(line, s.start, s.end)
}

// What stands from a place on before the next mark, or before the end.
pub(crate) fn first_of(line: &[u8], start: usize, end: usize, mark: u8) -> Span {
    let n = until(part_of(line, start, end), mark);
    Span {
        start,
        end: start.saturating_add(n),
    }
}

// The place after the mark that ends a part, or the end where none does.
pub(crate) fn after(s: Span, end: usize) -> usize {
    if s.end < end {
        return s.end + 1;
    }
    end
}

// A row's cell by its number; no bytes past the last.
pub(crate) fn cell(line: &[u8], row: Span, mark: u8, k: usize) -> Span {
    let mut at = row.start;
    for _ in 0..k {
        at = after(first_of(line, at, row.end, mark), row.end);
    }
    first_of(line, at, row.end, mark)
}

// `-`, which stands for none.
pub(crate) fn is_none(word: &[u8]) -> bool {
    word == b"-".as_slice()
}

// How many cells a row has.
pub(crate) fn count_cells(line: &[u8], row: Span, mark: u8) -> usize {
    let marks = word_of(line, row).iter().filter(|b| **b == mark).count();
    marks.saturating_add(1)
}

// How many rows a text has: they are parted by `/`. A field that is not there has none.
pub(crate) fn count_rows(line: &[u8], s: Span) -> usize {
    if s.end == 0 {
        return 0;
    }
    if is_none(word_of(line, s)) {
        return 0;
    }
    count_cells(line, s, b'/')
}

// The number that a part spells, by the size of the field that takes it.
pub(crate) fn number(line: &[u8], s: Span) -> u64 {
    number_of(word_of(line, s)).unwrap_or(0)
}

pub(crate) fn byte(line: &[u8], s: Span) -> u8 {
    (number(line, s) % 256) as u8
}

pub(crate) fn short(line: &[u8], s: Span) -> u16 {
    (number(line, s) % 65536) as u16
}

pub(crate) fn long(line: &[u8], s: Span) -> u32 {
    (number(line, s) % 4294967296) as u32
}

// Whether the digit of a part with that number is 1.
pub(crate) fn bit(line: &[u8], s: Span, k: usize) -> bool {
    match word_of(line, s).get(k) {
        Some(digit) => *digit == b'1',
        None => false,
    }
}
