// The text of each kind of typed value.
use crate::answers::Put;
use crate::texts::{Room, put_absent, put_bytes_value, put_pair, put_refusal, put_triple};
use refusal::Refusal;
use timestamps::Timestamp;
use tlv_last::Spot;
use values::{Channel, SecurityPolicy};

impl Put for Channel {
    fn put(self, text: &mut Room, at: usize) -> usize {
        put_pair(text, at, u64::from(self.page), u64::from(self.channel))
    }
}

// Seconds, ticks and the authoritative bit.
impl Put for Timestamp {
    fn put(self, text: &mut Room, at: usize) -> usize {
        put_triple(
            text,
            at,
            self.seconds(),
            u64::from(self.ticks()),
            u64::from(self.authoritative()),
        )
    }
}

impl Put for SecurityPolicy {
    fn put(self, text: &mut Room, at: usize) -> usize {
        put_pair(
            text,
            at,
            u64::from(self.rotation_time),
            u64::from(self.flags.bits()),
        )
    }
}

// Bytes with what is answered of them.
pub(crate) fn put_checked(
    text: &mut Room,
    at: usize,
    checked: Result<(), Refusal>,
    bytes: &[u8],
) -> usize {
    match checked {
        Ok(()) => put_bytes_value(text, at, bytes),
        Err(r) => put_refusal(text, at, r),
    }
}

// A part that was handed back, by what was found.
pub(crate) fn put_spot(
    text: &mut Room,
    at: usize,
    found: Result<Option<Spot>, Refusal>,
    part: &[u8],
) -> usize {
    match found {
        Ok(Some(_)) => put_bytes_value(text, at, part),
        Ok(None) => put_absent(text, at),
        Err(r) => put_refusal(text, at, r),
    }
}
