// What a call answers, as text: the word `ok` and what is given, or why nothing is.
use crate::texts::{Room, put_absent, put_hex, put_number, put_refusal, put_text};
use refusal::Refusal;

// A value that has a text.
pub(crate) trait Put {
    fn put(self, text: &mut Room, at: usize) -> usize;
}

impl Put for u8 {
    fn put(self, text: &mut Room, at: usize) -> usize {
        put_number(text, at, u64::from(self))
    }
}

impl Put for u16 {
    fn put(self, text: &mut Room, at: usize) -> usize {
        put_number(text, at, u64::from(self))
    }
}

impl Put for u32 {
    fn put(self, text: &mut Room, at: usize) -> usize {
        put_number(text, at, u64::from(self))
    }
}

impl Put for u64 {
    fn put(self, text: &mut Room, at: usize) -> usize {
        put_number(text, at, self)
    }
}

impl Put for usize {
    fn put(self, text: &mut Room, at: usize) -> usize {
        put_number(text, at, self as u64)
    }
}

// Bytes are in hex.
impl<const N: usize> Put for [u8; N] {
    fn put(self, text: &mut Room, at: usize) -> usize {
        put_hex(text, at, &self)
    }
}

pub(crate) fn put_given<T: Put>(text: &mut Room, at: usize, given: T) -> usize {
    let word = put_text(text, at, b"ok ");
    given.put(text, word)
}

pub(crate) fn put_read<T: Put>(text: &mut Room, at: usize, read: Result<T, Refusal>) -> usize {
    match read {
        Ok(x) => put_given(text, at, x),
        Err(r) => put_refusal(text, at, r),
    }
}

pub(crate) fn put_found<T: Put>(
    text: &mut Room,
    at: usize,
    found: Result<Option<T>, Refusal>,
) -> usize {
    match found {
        Ok(Some(x)) => put_given(text, at, x),
        Ok(None) => put_absent(text, at),
        Err(r) => put_refusal(text, at, r),
    }
}

// A row by its number: one that is not there has no text.
pub(crate) fn put_there<T: Put>(
    text: &mut Room,
    at: usize,
    row: Result<Option<T>, Refusal>,
) -> usize {
    match row {
        Ok(Some(x)) => x.put(text, at),
        _ => at,
    }
}
