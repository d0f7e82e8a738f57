// Text: each function puts its piece into the text from a place on, as far as there is room, and gives the place after it.
use itoa::Buffer;
use refusal::Refusal;

// As many bytes as the longest entry has. The text of a line, a value and a lent output are each one of these.
pub(crate) const ROOM: usize = 65540;

pub(crate) type Room = [u8; ROOM];

pub(crate) fn empty() -> Room {
    [0; ROOM]
}

// The part of s from start up to end, or no bytes where s has no such part.
pub(crate) fn part_of<'a>(s: &'a [u8], start: usize, end: usize) -> &'a [u8] {
    s.get(start..end).unwrap_or(&s[..0])
}

fn put_byte(text: &mut Room, at: usize, b: u8) -> usize {
    if at < ROOM {
        text[at] = b;
        return at + 1;
    }
    at
}

pub(crate) fn put(text: &mut Room, at: usize, s: &[u8]) -> usize {
    let mut next = at;
    for b in s {
        next = put_byte(text, next, *b);
    }
    next
}

fn digit_of(value: u8) -> u8 {
    let v = value % 16;
    if v < 10 { b'0' + v } else { b'A' - 10 + v }
}

fn put_pair(text: &mut Room, at: usize, b: u8) -> usize {
    let half = put_byte(text, at, digit_of(b / 16));
    put_byte(text, half, digit_of(b))
}

// Bytes as the sheet writes them, as `03 FF 00`.
pub(crate) fn put_hex(text: &mut Room, at: usize, s: &[u8]) -> usize {
    let Some((first, rest)) = s.split_first() else {
        return put(text, at, b"empty");
    };
    let mut next = put_pair(text, at, *first);
    for b in rest {
        let blank = put_byte(text, next, b' ');
        next = put_pair(text, blank, *b);
    }
    next
}

// Two bytes as one number, as `0x4000`.
pub(crate) fn put_word(text: &mut Room, at: usize, x: u16) -> usize {
    let mark = put(text, at, b"0x");
    let [high, low] = x.to_be_bytes();
    let first = put_pair(text, mark, high);
    put_pair(text, first, low)
}

// A number in decimal, after a text.
pub(crate) fn put_number(text: &mut Room, at: usize, before: &[u8], n: u64) -> usize {
    let mut digits = Buffer::new();
    let next = put(text, at, before);
    put(text, next, digits.format(n).as_bytes())
}

// One text or another.
pub(crate) fn put_either(text: &mut Room, at: usize, yes: bool, a: &[u8], b: &[u8]) -> usize {
    if yes {
        return put(text, at, a);
    }
    put(text, at, b)
}

// A refusal: its number, its place and which input.
pub(crate) fn put_refusal(text: &mut Room, at: usize, r: Refusal) -> usize {
    let number = put_number(text, at, b"refused ", u64::from(r.fault.number()));
    let place = put_number(text, number, b" ", r.place as u64);
    put_number(text, place, b" ", u64::from(r.input))
}
