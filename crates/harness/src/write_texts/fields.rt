// The fields of a `write` line: where each stands, and whether it can be read.
use crate::requests::{MOST_VALUES, Span, Values, number_of};
use crate::texts::Room;
use crate::write_texts::cells::{after, cell, count_cells, first_of, is_none, word_of};
use crate::write_texts::fits::{fits, row_fits, rows_fit};

// A field's type is below this.
const TYPES: usize = 32;

// Where each type's text stands in the line, with 0 for an end where there is none; and whether all could be read.
#[derive(Clone, Copy)]
pub(crate) struct Fields {
    pub(crate) good: bool,
    starts: [usize; TYPES],
    ends: [usize; TYPES],
}

impl Fields {
    pub(crate) fn text(self, ty: u8) -> Span {
        let k = ty as usize;
        if k < TYPES {
            return Span {
                start: self.starts[k],
                end: self.ends[k],
            };
        }
        Span { start: 0, end: 0 }
    }
}

// Sequence, mask and rows.
fn is_route64(line: &[u8], arena: &mut Room, s: Span) -> bool {
    if count_cells(line, s, b',') != 3 {
        return false;
    }
    let sequence = fits(line, arena, cell(line, s, b',', 0), b't');
    let mask = fits(line, arena, cell(line, s, b',', 1), b'k');
    let rows = rows_fit(line, arena, cell(line, s, b',', 2), b"tttt");
    sequence & mask & rows
}

// Prefixes, HasRoute rows and BorderRouter rows.
fn is_network(line: &[u8], arena: &mut Room, s: Span) -> bool {
    if count_cells(line, s, b'|') != 3 {
        return false;
    }
    let prefixes = rows_fit(line, arena, cell(line, s, b'|', 0), b"ttbcnn");
    let routes = rows_fit(line, arena, cell(line, s, b'|', 1), b"sti");
    let borders = rows_fit(line, arena, cell(line, s, b'|', 2), b"stf");
    prefixes & routes & borders
}

// Whether a text can be read as its type's; no other type has one.
fn field_fits(line: &[u8], arena: &mut Room, ty: usize, s: Span) -> bool {
    match ty {
        0 | 8 | 17 | 18 | 23 => fits(line, arena, s, b'b'),
        1 | 15 => fits(line, arena, s, b's'),
        2 => fits(line, arena, s, b'm'),
        3 => fits(line, arena, s, b'w'),
        4 => row_fits(line, arena, s, b',', b"pttttttST"),
        5 => is_route64(line, arena, s),
        6 => row_fits(line, arena, s, b',', b"wtttt"),
        7 => is_network(line, arena, s),
        9 => row_fits(line, arena, s, b',', b"wwwwwwwww"),
        14 => fits(line, arena, s, b't'),
        16 => rows_fit(line, arena, s, b"ttsm"),
        30 => rows_fit(line, arena, s, b"ssb"),
        _ => false,
    }
}

// The type that a word names, or one that no field has.
fn type_of(word: &[u8]) -> usize {
    match number_of(word) {
        Some(n) if n < TYPES as u64 => n as usize,
        _ => TYPES,
    }
}

// Whether the words after the output's size are one `-`: a record without fields.
fn says_none(line: &[u8], v: Values) -> bool {
    let second = v.span(3);
    if second.end != 0 {
        return false;
    }
    is_none(word_of(line, v.span(2)))
}

// The fields, from the second word after the name on: their types ascend, and there is one at least, or one `-`.
pub(crate) fn fields_of(line: &[u8], arena: &mut Room, v: Values) -> Fields {
    let mut starts = [0; TYPES];
    let mut ends = [0; TYPES];
    let mut good = says_none(line, v);
    let mut least = 0;
    let first = if good { MOST_VALUES } else { 2 };
    for k in first..MOST_VALUES {
        let w = v.span(k);
        if w.end == 0 {
            break;
        }
        let name = first_of(line, w.start, w.end, b'=');
        let ty = type_of(word_of(line, name));
        let start = after(name, w.end);
        good = (ty >= least) & field_fits(line, arena, ty, Span { start, end: w.end });
        if ty >= TYPES {
            break;
        }
        if !good {
            break;
        }
        starts[ty] = start;
        ends[ty] = w.end;
        least = ty + 1;
    }
    Fields { good, starts, ends }
}
