// Answers as text: each function puts its piece into the text from a place on, as far as there is room, and gives the place after it.
ghost use Rattle.std.specs.Prelude.{◌≡◌};
ghost use Rattle.refusal.specs.Answer.{pick};

use itoa::Buffer;
use refusal::Refusal;

// The size of the probe's buffers: more than the longest line has characters, and more than twice what the longest answer has, which is all
// that can be lent in hex. They are passed as arrays, which need no proof that they keep their length.
pub(crate) const ROOM: usize = 1048576;

pub(crate) type Room = [u8; ROOM];

// What an output is filled with before it is lent, so that what a call has to leave can be seen.
pub(crate) const PATTERN: u8 = 0xA5;

// The part of s from start up to end, or no bytes where s has no such part.
pub(crate) fn part_of<'a>(s: &'a [u8], start: usize, end: usize) -> &'a [u8] {
    s.get(start..end).unwrap_or(&s[..0])
}

// The len bytes of s from start on, or no bytes where s has no such part.
pub(crate) fn part<'a>(s: &'a [u8], start: usize, len: usize) -> &'a [u8] {
    part_of(s, start, start.saturating_add(len))
}

pub(crate) fn put_byte(text: &mut Room, at: usize, b: u8) -> usize {
    if at < ROOM {
        text[at] = b;
        return at + 1;
    }
    at
}

pub(crate) fn put_text(text: &mut Room, at: usize, s: &[u8]) -> usize {
    let mut next = at;
    for b in s {
        next = put_byte(text, next, *b);
    }
    next
}

// A bit as a digit.
pub(crate) fn digit(bit: bool) -> u8
    ensures { result ≡ pick bit 49 48 }
{
    if bit { b'1' } else { b'0' }
}

fn digit_of(value: u8) -> u8 {
    let v = value % 16;
    if v < 10 { b'0' + v } else { b'a' - 10 + v }
}

// Bytes in lower-case hex, and `-` for none.
pub(crate) fn put_hex(text: &mut Room, at: usize, s: &[u8]) -> usize {
    if s.is_empty() {
        return put_byte(text, at, b'-');
    }
    let mut next = at;
    for b in s {
        let half = put_byte(text, next, digit_of(b / 16));
        next = put_byte(text, half, digit_of(*b));
    }
    next
}

pub(crate) fn put_number(text: &mut Room, at: usize, n: u64) -> usize {
    let mut digits = Buffer::new();
    put_text(text, at, digits.format(n).as_bytes())
}

// A mark, and a number.
pub(crate) fn put_marked(text: &mut Room, at: usize, mark: u8, n: usize) -> usize {
    let next = put_byte(text, at, mark);
    put_number(text, next, n as u64)
}

// The name of a field: a blank, its type and `=`.
pub(crate) fn put_name(text: &mut Room, at: usize, ty: u8) -> usize {
    let number = put_marked(text, at, b' ', ty as usize);
    put_byte(text, number, b'=')
}

// Numbers, the mark before each.
pub(crate) fn put_numbers(text: &mut Room, at: usize, mark: u8, numbers: &[usize]) -> usize {
    let mut next = at;
    for n in numbers {
        next = put_marked(text, next, mark, *n);
    }
    next
}

pub(crate) fn put_refusal(text: &mut Room, at: usize, r: Refusal) -> usize {
    let numbers = [usize::from(r.fault.number()), r.place, usize::from(r.input)];
    let word = put_text(text, at, b"refused");
    put_numbers(text, word, b' ', &numbers)
}

// The word of an answer that has a value.
pub(crate) fn put_ok(text: &mut Room, at: usize) -> usize {
    put_text(text, at, b"ok")
}

pub(crate) fn put_absent(text: &mut Room, at: usize) -> usize {
    put_text(text, at, b"absent")
}

// The word `dirty`, if what a call had to leave has changed.
pub(crate) fn put_dirty(text: &mut Room, at: usize, changed: bool) -> usize {
    if changed {
        return put_text(text, at, b" dirty");
    }
    at
}

// A value that is bytes.
pub(crate) fn put_bytes_value(text: &mut Room, at: usize, s: &[u8]) -> usize {
    let word = put_text(text, at, b"ok ");
    put_hex(text, word, s)
}

// Two numbers, or three, blanks between.
pub(crate) fn put_pair(text: &mut Room, at: usize, a: u64, b: u64) -> usize {
    let first = put_number(text, at, a);
    let blank = put_byte(text, first, b' ');
    put_number(text, blank, b)
}

pub(crate) fn put_triple(text: &mut Room, at: usize, a: u64, b: u64, c: u64) -> usize {
    let second = put_pair(text, at, a, b);
    let blank = put_byte(text, second, b' ');
    put_number(text, blank, c)
}
