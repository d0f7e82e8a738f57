// The lines on timestamps and policy flags.
use crate::sheet::{Score, judge};
use crate::text::{Room, empty, put, put_either, put_hex, put_number, put_word};
use policy_flags::{SecurityPolicyFlags, ThreadProtocolVersion};
use std::io;
use timestamps::Timestamp;

fn built(
    score: Score,
    seconds: u64,
    ticks: u16,
    authoritative: bool,
    stated: &[u8],
) -> io::Result<Score> {
    let mut text = empty();
    let first = put_number(&mut text, 0, b"seconds ", seconds);
    let second = put_number(&mut text, first, b", ticks ", ticks as u64);
    let said = put_either(
        &mut text,
        second,
        authoritative,
        b", authoritative: ",
        b": ",
    );
    let stamp = Timestamp::from_components(seconds, ticks, authoritative);
    let value = stamp.to_value();
    let end = put_hex(&mut text, said, &value);
    judge(score, &mut text, said, end, stated)
}

fn put_version(text: &mut Room, at: usize, version: ThreadProtocolVersion) -> usize {
    match version {
        ThreadProtocolVersion::V1Or2 => put(text, at, b"V1Or2"),
        ThreadProtocolVersion::V3 => put(text, at, b"V3"),
        ThreadProtocolVersion::V4 => put(text, at, b"V4"),
        ThreadProtocolVersion::V5 => put(text, at, b"V5"),
        ThreadProtocolVersion::V6 => put(text, at, b"V6"),
        ThreadProtocolVersion::V7 => put(text, at, b"V7"),
        ThreadProtocolVersion::V8 => put(text, at, b"V8"),
        ThreadProtocolVersion::V9 => put(text, at, b"V9"),
        ThreadProtocolVersion::V10 => put(text, at, b"V10"),
    }
}

// Flags set to a version: their bits, and the version that they read.
fn set(
    score: Score,
    bits: u16,
    version: ThreadProtocolVersion,
    stated: &[u8],
) -> io::Result<Score> {
    let mut text = empty();
    let flag = put(&mut text, 0, b"flags ");
    let old = put_word(&mut text, flag, bits);
    let to = put(&mut text, old, b" set to ");
    let name = put_version(&mut text, to, version);
    let said = put(&mut text, name, b": ");
    let flags = SecurityPolicyFlags::from_bits_retain(bits);
    let changed = flags.set_version_threshold_for_routing(version);
    let new = put_word(&mut text, said, changed.bits());
    let reads = put(&mut text, new, b", reads ");
    let end = put_version(&mut text, reads, changed.version_threshold_for_routing());
    judge(score, &mut text, said, end, stated)
}

pub(crate) fn lines(score: Score) -> io::Result<Score> {
    // "Seconds 1, ticks 2, authoritative: `00 00 00 00 00 01 00 05`."
    let mut s = built(score, 1, 2, true, b"00 00 00 00 00 01 00 05")?;
    // "Flags 0x0004 set to `V5`: 0x4000. 0xE000 set to `V1Or2`: 0xE004, reads `V1Or2`."
    s = set(s, 0x0004, ThreadProtocolVersion::V5, b"0x4000, reads V5")?;
    set(
        s,
        0xE000,
        ThreadProtocolVersion::V1Or2,
        b"0xE004, reads V1Or2",
    )
}
