// The lines on framing.
use crate::sheet::{Score, judge, put_said, put_written};
use crate::text::{Room, empty, put_number, put_refusal};
use std::io;
use tlv::Head;

// The first entry's type and length.
fn put_first(text: &mut Room, at: usize, s: &[u8]) -> usize {
    match tlv::parse_one(s) {
        Ok(Head { ty, header, len }) => {
            let first = put_number(text, at, b": type ", ty as u64);
            let second = put_number(text, first, b", header ", header as u64);
            put_number(text, second, b", length ", len as u64)
        }
        Err(r) => put_refusal(text, at, r),
    }
}

fn put_entries(text: &mut Room, at: usize, s: &[u8]) -> usize {
    match tlv::count_entries(s, 0) {
        Ok(n) => {
            let count = put_number(text, at, b"entries ", n as u64);
            if n == 0 {
                return count;
            }
            put_first(text, count, s)
        }
        Err(r) => put_refusal(text, at, r),
    }
}

fn framed(score: Score, s: &[u8], stated: &[u8]) -> io::Result<Score> {
    let mut text = empty();
    let said = put_said(&mut text, b"", s, b": ");
    let end = put_entries(&mut text, said, s);
    judge(score, &mut text, said, end, stated)
}

fn rewritten(score: Score, s: &[u8], stated: &[u8]) -> io::Result<Score> {
    let mut text = empty();
    let mut out = empty();
    let said = put_said(&mut text, b"", s, b" writes back as: ");
    let written = tlv_rewriting::rewrite(s, &mut out);
    let end = put_written(&mut text, said, written, &out);
    judge(score, &mut text, said, end, stated)
}

pub(crate) fn lines(score: Score) -> io::Result<Score> {
    // "empty: no entries. `00 00`: one empty entry. `03`: 2 at 0."
    let mut s = framed(score, b"", b"entries 0")?;
    s = framed(s, b"\x00\x00", b"entries 1: type 0, header 2, length 0")?;
    s = framed(s, b"\x03", b"refused 2 0 0")?;
    // "`03 FF 00`: 2 at 0. `03 FF 00 01 41` writes back as `03 01 41`."
    s = framed(s, b"\x03\xFF\x00", b"refused 2 0 0")?;
    rewritten(s, b"\x03\xFF\x00\x01\x41", b"03 01 41")
}
