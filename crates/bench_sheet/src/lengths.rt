// The lines on how long a single value may be: "A single entry or mask value is bound by 13 and 11 only, not 10".
use crate::sheet::{Score, judge};
use crate::text::{Room, empty, part_of, put, put_either, put_hex, put_number, put_refusal};
use refusal::Refusal;
use std::io;

// A value of which no two neighbours are the same.
fn long_value() -> Room {
    let mut value = empty();
    for (i, b) in value.iter_mut().enumerate() {
        *b = (i % 251) as u8;
    }
    value
}

// What was written ahead of a value, and whether the value stands after it.
fn put_ahead(text: &mut Room, at: usize, wrote: &[u8], value: &[u8]) -> usize {
    let n = wrote.len();
    if n < value.len() {
        return put_hex(text, at, wrote);
    }
    let head = n - value.len();
    let next = put_hex(text, at, part_of(wrote, 0, head));
    let kept = part_of(wrote, head, n) == value;
    put_either(text, next, kept, b" and the value", b" and other bytes")
}

fn put_long(
    text: &mut Room,
    at: usize,
    written: Result<usize, Refusal>,
    out: &Room,
    value: &[u8],
) -> usize {
    match written {
        Ok(k) => put_ahead(text, at, part_of(out, 0, k), value),
        Err(r) => put_refusal(text, at, r),
    }
}

// The start of a line: the call, the length of its value and that of its output.
fn put_lengths(text: &mut Room, before: &[u8], value: &[u8], lent: usize) -> usize {
    let length = put_number(text, 0, before, value.len() as u64);
    let output = put_number(text, length, b" into ", lent as u64);
    put(text, output, b": ")
}

// One entry into the first bytes of an output.
fn write_entry(value: &[u8], out: &mut [u8], lent: usize) -> Result<usize, Refusal> {
    if lent <= out.len() {
        return tlv_writing::write_entry(3, value, &mut out[0..lent]);
    }
    tlv_writing::write_entry(3, value, out)
}

// One mask item likewise.
fn write_mask(mask: &[u8], out: &mut [u8], lent: usize) -> Result<usize, Refusal> {
    if lent <= out.len() {
        return channel_masks::write_mask_item(0, mask, &mut out[0..lent]);
    }
    channel_masks::write_mask_item(0, mask, out)
}

fn entry(score: Score, n: usize, lent: usize, stated: &[u8]) -> io::Result<Score> {
    let mut text = empty();
    let mut out = empty();
    let all = long_value();
    let value = part_of(&all, 0, n);
    let said = put_lengths(&mut text, b"entry of type 3, bytes ", value, lent);
    let written = write_entry(value, &mut out, lent);
    let end = put_long(&mut text, said, written, &out, value);
    judge(score, &mut text, said, end, stated)
}

fn mask(score: Score, n: usize, lent: usize, stated: &[u8]) -> io::Result<Score> {
    let mut text = empty();
    let mut out = empty();
    let all = long_value();
    let value = part_of(&all, 0, n);
    let said = put_lengths(&mut text, b"mask item of page 0, bytes ", value, lent);
    let written = write_mask(value, &mut out, lent);
    let end = put_long(&mut text, said, written, &out, value);
    judge(score, &mut text, said, end, stated)
}

pub(crate) fn lines(score: Score) -> io::Result<Score> {
    // "value lengths 254, 255, 65,535 are written; 65,536 is 13", and 11 is an output that is one byte too short
    let mut s = entry(score, 254, 256, b"03 FE and the value")?;
    s = entry(s, 254, 255, b"refused 11 0 0")?;
    s = entry(s, 255, 259, b"03 FF 00 FF and the value")?;
    s = entry(s, 255, 258, b"refused 11 0 0")?;
    s = entry(s, 65535, 65539, b"03 FF FF FF and the value")?;
    s = entry(s, 65535, 65538, b"refused 11 0 0")?;
    s = entry(s, 65536, 65540, b"refused 13 0 0")?;
    // the same of a mask, of which the table says: 13, "mask item over 255"
    s = mask(s, 254, 256, b"00 FE and the value")?;
    s = mask(s, 255, 257, b"00 FF and the value")?;
    s = mask(s, 255, 256, b"refused 11 0 0")?;
    s = mask(s, 256, 65540, b"refused 13 0 0")?;
    s = mask(s, 65535, 65540, b"refused 13 0 0")?;
    mask(s, 65536, 65540, b"refused 13 0 0")
}
