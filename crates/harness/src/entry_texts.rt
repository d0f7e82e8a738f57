// The texts of entries: `frame`, `one`, `raw`, `template`.
use crate::answers::{Put, put_given, put_read};
use crate::requests::{Values, asks};
use crate::texts::{
    Room, put_absent, put_hex, put_marked, put_number, put_numbers, put_refusal, put_text,
    put_triple,
};
use house_template::{Supplied, supplied_value};
use tlv::{Entry, Head};

// An entry: type, place of its first byte, header size and length.
fn put_entry(text: &mut Room, at: usize, e: Entry<'_>) -> usize {
    let first = put_marked(text, at, b' ', usize::from(e.ty));
    let numbers = [e.place, e.start.saturating_sub(e.place), e.value.len()];
    put_numbers(text, first, b':', &numbers)
}

fn put_entries(text: &mut Room, at: usize, s: &[u8]) -> usize {
    let mut next = at;
    for e in tlv::entries(s) {
        next = put_entry(text, next, e);
    }
    next
}

// The answer to `frame` for these bytes: how many entries there are, and each.
pub(crate) fn put_frame(text: &mut Room, at: usize, s: &[u8]) -> usize {
    match tlv::count_entries(s, 0) {
        Ok(n) => {
            let count = put_given(text, at, n);
            put_entries(text, count, s)
        }
        Err(r) => put_refusal(text, at, r),
    }
}

// A part after the words of its answer, and where it begins.
pub(crate) fn put_part(
    text: &mut Room,
    at: usize,
    words: &[u8],
    part: &[u8],
    start: usize,
) -> usize {
    let word = put_text(text, at, words);
    let bytes = put_hex(text, word, part);
    let sign = put_text(text, bytes, b" @");
    put_number(text, sign, start as u64)
}

// The place is where the value of the entry that was found begins, the bytes are the part that was handed back.
fn put_raw(text: &mut Room, at: usize, ty: u8, s: &[u8]) -> usize {
    match tlv_last::last_entry(s, ty, 0) {
        Ok(Some(spot)) => put_part(text, at, b"ok ", tlv_last::last_value(s, ty), spot.start),
        Ok(None) => put_absent(text, at),
        Err(r) => put_refusal(text, at, r),
    }
}

// The same, out of the site's dataset (0) or else out of the house template (1).
fn put_supplied<'a>(text: &mut Room, at: usize, ty: u8, s: &'a [u8], house: &'a [u8]) -> usize {
    match house_template::supplied_entry(s, house, ty) {
        Ok(Some(Supplied::Site(spot))) => {
            put_part(text, at, b"ok 0 ", supplied_value(s, house, ty), spot.start)
        }
        Ok(Some(Supplied::Template(spot))) => {
            put_part(text, at, b"ok 1 ", supplied_value(s, house, ty), spot.start)
        }
        Ok(None) => put_absent(text, at),
        Err(r) => put_refusal(text, at, r),
    }
}

// Type, header size and length.
impl Put for Head {
    fn put(self, text: &mut Room, at: usize) -> usize {
        put_triple(
            text,
            at,
            u64::from(self.ty),
            self.header as u64,
            self.len as u64,
        )
    }
}

// Puts the answer to a request, or nothing where it is for none of these calls.
pub(crate) fn answer(request: &Room, v: Values, text: &mut Room, at: usize) -> usize {
    let s = v.bytes(request, 1);
    if asks(request, b"frame b") {
        return put_frame(text, at, s);
    }
    if asks(request, b"one b") {
        return put_read(text, at, tlv::parse_one(s));
    }
    if asks(request, b"raw tb") {
        return put_raw(text, at, v.type_byte(1), v.bytes(request, 2));
    }
    if asks(request, b"template tbb") {
        return put_supplied(
            text,
            at,
            v.type_byte(1),
            v.bytes(request, 2),
            v.bytes(request, 3),
        );
    }
    at
}
