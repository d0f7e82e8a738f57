// Whether a cell, a row or rows can be read. A letter says what a cell is: t, s, w and n a number to 255, to 65,535, to 2^32 - 1 and to 2^64 - 1, T and S
// the same or `-`, i 0 or 1, m and f three and eight such digits, p a priority, b bytes, k a mask of 8 bytes, c a context.
use crate::requests::{Span, hex_kind, number_of, put_bytes};
use crate::texts::Room;
use crate::write_texts::cells::{after, cell, count_cells, count_rows, first_of, is_none, word_of};

// So many digits, each 0 or 1.
fn is_digits(word: &[u8], n: usize) -> bool {
    word.len() == n && word.iter().all(|c| *c == b'0' || *c == b'1')
}

// Whether a word is a number, and not over the most.
fn is_number(word: &[u8], most: u64) -> bool {
    match number_of(word) {
        Some(n) => n <= most,
        None => false,
    }
}

// A number to 127, or one to 128 after a `-`.
fn is_priority(word: &[u8]) -> bool {
    match word {
        [b'-', digits @ ..] => is_number(digits, 128),
        _ => is_number(word, 127),
    }
}

fn fits_plain(word: &[u8], letter: u8) -> bool {
    match letter {
        b't' => is_number(word, 255),
        b's' => is_number(word, 65535),
        b'w' => is_number(word, 4294967295),
        b'n' => is_number(word, u64::MAX),
        b'i' => is_number(word, 1),
        b'T' => is_none(word) | is_number(word, 255),
        b'S' => is_none(word) | is_number(word, 65535),
        b'm' => is_digits(word, 3),
        b'f' => is_digits(word, 8),
        b'p' => is_priority(word),
        _ => false,
    }
}

// Puts the bytes of a cell into the arena, if it spells some: those of a cell that begins at a place of the line from half that place on, so that no
// two cells meet there.
fn take_bytes(line: &[u8], arena: &mut Room, s: Span) -> bool {
    let word = word_of(line, s);
    let start = s.start / 2;
    let end = put_bytes(word, arena, start);
    hex_kind(word, start, end) != 0
}

// `compress.id.length`, or `-`.
fn is_context(line: &[u8], s: Span) -> bool {
    if is_none(word_of(line, s)) {
        return true;
    }
    if count_cells(line, s, b'.') != 3 {
        return false;
    }
    let compress = fits_plain(word_of(line, cell(line, s, b'.', 0)), b'i');
    let id = fits_plain(word_of(line, cell(line, s, b'.', 1)), b't');
    let length = fits_plain(word_of(line, cell(line, s, b'.', 2)), b't');
    compress & id & length
}

pub(crate) fn fits(line: &[u8], arena: &mut Room, s: Span, letter: u8) -> bool {
    match letter {
        b'b' => take_bytes(line, arena, s),
        b'k' => take_bytes(line, arena, s) & (word_of(line, s).len() == 16),
        b'c' => is_context(line, s),
        _ => fits_plain(word_of(line, s), letter),
    }
}

// As many cells as letters, each as its letter says.
pub(crate) fn row_fits(line: &[u8], arena: &mut Room, row: Span, mark: u8, letters: &[u8]) -> bool {
    let mut at = row.start;
    for letter in letters {
        let c = first_of(line, at, row.end, mark);
        if !fits(line, arena, c, *letter) {
            return false;
        }
        at = after(c, row.end);
    }
    count_cells(line, row, mark) == letters.len()
}

// Rows parted by `/`, their cells by `:`, or `-` for none.
pub(crate) fn rows_fit(line: &[u8], arena: &mut Room, s: Span, letters: &[u8]) -> bool {
    let mut at = s.start;
    for _ in 0..count_rows(line, s) {
        let row = first_of(line, at, s.end, b'/');
        if !row_fits(line, arena, row, b':', letters) {
            return false;
        }
        at = after(row, s.end);
    }
    true
}
