// A request of the line protocol as it was read: the kinds of its words, and the values that they spell.
//
// The arena has first its name, a blank, a kind for each further word and 0; and from BYTES on the bytes that its words spell, side by side.
ghost use Rattle.std.specs.Prelude.{◌≡◌, ◌≤◌, length};
ghost use Rattle.harness.specs.Places.{bytes_before};

use crate::texts::{ROOM, Room, part_of, put_byte, put_text};

// A request has at most so many words, its name among them, and a name at most so long: the bytes come after what both can take.
pub(crate) const MOST_VALUES: usize = 24;

const LONGEST_NAME: usize = 32;

const BYTES: usize = 64;

// A word's kind is the sum of what it is: a word (and so never 0), bytes, a number, one to 255, to 65,535, to 1, a version.
const WORD: u8 = 1;

const HEX: u8 = 2;

const NUMBER: u8 = 4;

const TYPE: u8 = 8;

const SHORT: u8 = 16;

const BIT: u8 = 32;

const VERSION: u8 = 64;

// A word's kind, the place where it stops in the line, the part of the arena that has its bytes, and its number.
#[derive(Clone, Copy)]
struct Value {
    kind: u8,
    stop: usize,
    start: usize,
    end: usize,
    number: u64,
}

// A part of a line, from a place up to another.
#[derive(Clone, Copy)]
pub(crate) struct Span {
    pub(crate) start: usize,
    pub(crate) end: usize,
}

// The values of the words by their number, the name's being 0, and the last word's number: for a call that is lent an output, its size.
#[derive(Clone, Copy)]
pub(crate) struct Values {
    pub(crate) cap: u64,
    values: [Value; MOST_VALUES],
}

// The place of the first `stop`, or the end.
pub(crate) fn until(s: &[u8], stop: u8) -> usize
    ensures upper_bound { result ≤ length s.now }
    ensures value { result ≡ bytes_before stop s.now }
{
    for (i, b) in s.iter().enumerate() {
        if *b == stop {
            return i;
        }
    }
    s.len()
}

// The value of a lower-case hex digit, or 16.
fn digit(c: u8) -> u8 {
    match c {
        b'0'..=b'9' => c - b'0',
        b'a'..=b'f' => c - b'a' + 10,
        _ => 16,
    }
}

// Puts the bytes that a word spells into the arena from start on. The place after them, which is start where it spells none. A digit that is
// none has a bit that no other has, so one test at the end finds it.
pub(crate) fn put_bytes(word: &[u8], arena: &mut Room, start: usize) -> usize {
    let mut seen = 0;
    let mut end = start;
    for i in 0..word.len() / 2 {
        let high = digit(word[2 * i]);
        let low = digit(word[2 * i + 1]);
        seen |= high | low;
        end = put_byte(arena, end, high % 16 * 16 + low % 16);
    }
    if seen > 15 {
        return start;
    }
    if word.len() % 2 == 1 {
        return start;
    }
    end
}

// The number that a word spells, to 2^64 - 1: digits alone, with no sign.
pub(crate) fn number_of(word: &[u8]) -> Option<u64> {
    if word.is_empty() {
        return None;
    }
    let mut x: u64 = 0;
    for c in word {
        if !c.is_ascii_digit() {
            return None;
        }
        x = x.checked_mul(10)?.checked_add(u64::from(c - b'0'))?;
    }
    Some(x)
}

fn number_kind(x: u64) -> u8 {
    if x > 65535 {
        return NUMBER;
    }
    if x > 255 {
        return NUMBER | SHORT;
    }
    if x > 1 {
        return NUMBER | SHORT | TYPE;
    }
    NUMBER | SHORT | TYPE | BIT
}

// The number of a version, with 0 for `V1Or2`.
fn version_of(word: &[u8]) -> Option<u64> {
    match word {
        b"V1Or2" => Some(0),
        b"V10" => Some(10),
        [b'V', digit @ b'3'..=b'9'] => Some(u64::from(digit - b'0')),
        _ => None,
    }
}

// The number that a word spells, or the number of a version, with its kind: 0 if it is neither.
fn numbered(word: &[u8]) -> (u8, u64) {
    if let Some(n) = number_of(word) {
        return (number_kind(n), n);
    }
    match version_of(word) {
        Some(n) => (VERSION, n),
        None => (0, 0),
    }
}

pub(crate) fn hex_kind(word: &[u8], start: usize, end: usize) -> u8 {
    if end > start || word == b"-".as_slice() {
        HEX
    } else {
        0
    }
}

// Reads the word that begins at `first`, and puts its bytes into the arena from `start` on.
fn value_of(line: &[u8], first: usize, arena: &mut Room, start: usize) -> Value
    requires { first ≤ length line.now }
    ensures first_le_stop { first ≤ result.stop }
    ensures stop_in_bounds { result.stop ≤ length line.now }
{
    let stop = first + until(&line[first..], b' ');
    let word = &line[first..stop];
    let (kind, number) = numbered(word);
    let end = put_bytes(word, arena, start);
    Value {
        kind: WORD | hex_kind(word, start, end) | kind,
        stop,
        start,
        end,
        number,
    }
}

// Puts the name and a blank at the start of the arena. The place after it, or 0 where it is too long.
fn put_name(arena: &mut Room, name: &[u8]) -> usize {
    if name.len() > LONGEST_NAME {
        return 0;
    }
    let end = put_text(arena, 0, name);
    put_byte(arena, end, b' ')
}

// Reads the words of a line into the arena. A line that has too many has no name there either.
pub(crate) fn read(line: &[u8], arena: &mut Room) -> Values {
    let none = Value {
        kind: 0,
        stop: 0,
        start: 0,
        end: 0,
        number: 0,
    };
    let mut values = [none; MOST_VALUES];
    let mut cap = 0;
    let mut blank = until(line, b' ');
    let mut key = put_name(arena, &line[0..blank]);
    let mut start = BYTES;
    let mut k = 1;
    while blank < line.len() {
        if k >= MOST_VALUES {
            key = 0;
            break;
        }
        let v = value_of(line, blank + 1, arena, start);
        values[k] = v;
        key = put_byte(arena, key, v.kind);
        start = v.end;
        cap = v.number;
        blank = v.stop;
        k += 1;
    }
    put_byte(arena, key, 0);
    Values { cap, values }
}

impl Values {
    // The bytes that a word spells, in the arena that it was read into.
    pub(crate) fn bytes<'a>(self, request: &'a Room, k: usize) -> &'a [u8] {
        if k < MOST_VALUES {
            let v = self.values[k];
            return part_of(request, v.start, v.end);
        }
        part_of(request, 0, 0)
    }

    // Where a word stands in its line, from the one after the first on; an end of 0 past the last.
    pub(crate) fn span(self, k: usize) -> Span {
        let none = Span { start: 0, end: 0 };
        if k == 0 {
            return none;
        }
        if k >= MOST_VALUES {
            return none;
        }
        let before = self.values[k - 1];
        let v = self.values[k];
        if before.stop < v.stop {
            return Span {
                start: before.stop + 1,
                end: v.stop,
            };
        }
        none
    }

    pub(crate) fn number(self, k: usize) -> u64 {
        if k < MOST_VALUES {
            let v = self.values[k];
            return v.number;
        }
        0
    }

    pub(crate) fn type_byte(self, k: usize) -> u8 {
        (self.number(k) % 256) as u8
    }

    pub(crate) fn short(self, k: usize) -> u16 {
        (self.number(k) % 65536) as u16
    }
}

// Whether a character of a request in the arena is what a call's text has there: the same one, or a kind that the letter stands for.
fn agrees(c: u8, with: u8, letters: bool) -> bool {
    if !letters {
        return c == with;
    }
    match with {
        b'b' => c & HEX != 0,
        b'n' => c & NUMBER != 0,
        b't' => c & TYPE != 0,
        b's' => c & SHORT != 0,
        b'i' => c & BIT != 0,
        b'v' => c & VERSION != 0,
        _ => false,
    }
}

// Whether a request is for the call of that text: its name, a blank and a letter for each further word, b for bytes, n for a number, t for
// one to 255 (a type, a page), s for one to 65,535, i for 0 or 1, v for a version; and at its end * for any further words.
pub(crate) fn asks(request: &Room, call: &[u8]) -> bool {
    let n = call.len();
    if n >= ROOM {
        return false;
    }
    let mut letters = false;
    for (c, with) in request.iter().zip(call) {
        if *with == b'*' {
            return true;
        }
        if !agrees(*c, *with, letters) {
            return false;
        }
        letters |= *with == b' ';
    }
    request[n] == 0
}
