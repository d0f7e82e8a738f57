// The texts of typed values built from numbers, and of flags: `ts.build`, `channel.bytes`, `policy.bytes`, `flags.get`, `flags.set`, `flags.has`.
use crate::answers::put_given;
use crate::requests::{Values, asks};
use crate::texts::{Room, put_bytes_value, put_number, put_text};
use policy_flags::{SecurityPolicyFlags, ThreadProtocolVersion};
use timestamps::Timestamp;
use values::{Channel, SecurityPolicy};

pub(crate) fn version_of(number: u64) -> ThreadProtocolVersion {
    match number {
        3 => ThreadProtocolVersion::V3,
        4 => ThreadProtocolVersion::V4,
        5 => ThreadProtocolVersion::V5,
        6 => ThreadProtocolVersion::V6,
        7 => ThreadProtocolVersion::V7,
        8 => ThreadProtocolVersion::V8,
        9 => ThreadProtocolVersion::V9,
        10 => ThreadProtocolVersion::V10,
        _ => ThreadProtocolVersion::V1Or2,
    }
}

fn number_of(version: ThreadProtocolVersion) -> u64 {
    match version {
        ThreadProtocolVersion::V1Or2 => 1,
        ThreadProtocolVersion::V3 => 3,
        ThreadProtocolVersion::V4 => 4,
        ThreadProtocolVersion::V5 => 5,
        ThreadProtocolVersion::V6 => 6,
        ThreadProtocolVersion::V7 => 7,
        ThreadProtocolVersion::V8 => 8,
        ThreadProtocolVersion::V9 => 9,
        ThreadProtocolVersion::V10 => 10,
    }
}

pub(crate) fn put_version(text: &mut Room, at: usize, version: ThreadProtocolVersion) -> usize {
    let word = put_text(text, at, b"ok V");
    let number = number_of(version);
    let end = put_number(text, word, number);
    if number == 1 {
        return put_text(text, end, b"Or2");
    }
    end
}

fn put_built(text: &mut Room, at: usize, seconds: u64, ticks: u16, bit: u64) -> usize {
    let bytes = Timestamp::from_components(seconds, ticks, bit == 1).to_value();
    put_bytes_value(text, at, &bytes)
}

fn put_has(text: &mut Room, at: usize, flags: SecurityPolicyFlags, mask: u16) -> usize {
    put_given(text, at, u8::from(flags.contains(mask)))
}

fn put_channel_bytes(text: &mut Room, at: usize, page: u8, channel: u16) -> usize {
    let bytes = Channel { page, channel }.to_value();
    put_bytes_value(text, at, &bytes)
}

fn put_policy_bytes(text: &mut Room, at: usize, rotation_time: u16, flags: u16) -> usize {
    let policy = SecurityPolicy {
        rotation_time,
        flags: SecurityPolicyFlags::from_bits_retain(flags),
    };
    let bytes = policy.to_value();
    put_bytes_value(text, at, &bytes)
}

fn flags_texts(request: &Room, v: Values, text: &mut Room, at: usize) -> usize {
    let flags = SecurityPolicyFlags::from_bits_retain(v.short(1));
    if asks(request, b"flags.get s") {
        return put_version(text, at, flags.version_threshold_for_routing());
    }
    if asks(request, b"flags.set sv") {
        let set = flags.set_version_threshold_for_routing(version_of(v.number(2)));
        return put_given(text, at, set.bits());
    }
    if asks(request, b"flags.has ss") {
        return put_has(text, at, flags, v.short(2));
    }
    at
}

// Puts the answer to a request, or nothing where it is for none of these calls.
pub(crate) fn answer(request: &Room, v: Values, text: &mut Room, at: usize) -> usize {
    if asks(request, b"ts.build nsi") {
        return put_built(text, at, v.number(1), v.short(2), v.number(3));
    }
    if asks(request, b"channel.bytes ts") {
        return put_channel_bytes(text, at, v.type_byte(1), v.short(2));
    }
    if asks(request, b"policy.bytes ss") {
        return put_policy_bytes(text, at, v.short(1), v.short(2));
    }
    flags_texts(request, v, text, at)
}
