// The pairing of a payload: how many rows, then what is said of each.
use crate::answers::put_given;
use crate::texts::{Room, put_dirty, put_number, put_refusal, put_text};
use pair_rule::Pairing;
use refusal::Refusal;

// What the answers that are lent are filled with: the number of no list.
const PATTERN: u16 = 0xA5A5;

// More than a child table can have rows.
const PLACES: usize = refusal::MAX_BYTES / 3 + 1;

// Whether anything from a place on is no longer the pattern.
fn changed(lent: &[u16], from: usize) -> bool {
    lent.iter().skip(from).any(|code| *code != PATTERN)
}

fn put_pairing(text: &mut Room, at: usize, code: u16) -> usize {
    match Pairing::from_code(code) {
        Pairing::Paired(list) => {
            let mark = put_text(text, at, b" p");
            put_number(text, mark, list as u64)
        }
        Pairing::None => put_text(text, at, b" none"),
        Pairing::Unclear => put_text(text, at, b" unclear"),
    }
}

fn put_pairings(text: &mut Room, at: usize, codes: &[u16], n: usize) -> usize {
    let mut next = at;
    for code in codes.iter().take(n) {
        next = put_pairing(text, next, *code);
    }
    next
}

fn put_answered(
    text: &mut Room,
    at: usize,
    answered: Result<usize, Refusal>,
    lent: &[u16],
) -> usize {
    match answered {
        Ok(n) => {
            let count = put_given(text, at, n);
            let end = put_pairings(text, count, lent, n);
            put_dirty(text, end, changed(lent, n))
        }
        Err(r) => {
            let end = put_refusal(text, at, r);
            put_dirty(text, end, changed(lent, 0))
        }
    }
}

fn put_paired(text: &mut Room, at: usize, payload: &[u8], codes: &mut [u16], cap: u64) -> usize {
    let n = codes.len().min(cap as usize);
    let answered = pairing::pair(payload, &mut codes[0..n]);
    put_answered(text, at, answered, &codes[0..n])
}

pub(crate) fn put_pairs(text: &mut Room, at: usize, payload: &[u8], cap: u64) -> usize {
    let mut codes = [PATTERN; PLACES];
    put_paired(text, at, payload, &mut codes, cap)
}
