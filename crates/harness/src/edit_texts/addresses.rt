// Calls that take an IPv6 address to text, `addrtext`, and text to an address, `textaddr`.
use crate::edit_texts::answers::Answer;
use crate::edit_texts::policies::policy_calls;
use crate::requests::{Values, asks};
use crate::texts::Room;

// An address has 16 bytes, and a request with another number of them is for no call.
fn address_text(value: &[u8], lent: &mut [u8]) -> Answer {
    if value.len() != 16 {
        return Answer::Unknown;
    }
    let mut address = [0u8; 16];
    copying::put_bytes(value, &mut address, 0);
    Answer::Wrote(address_writing::write_address(address, lent))
}

pub(crate) fn address_calls(request: &Room, v: Values, lent: &mut [u8]) -> Answer {
    if asks(request, b"addrtext bn") {
        return address_text(v.bytes(request, 1), lent);
    }
    if asks(request, b"textaddr bn") {
        return Answer::Wrote(address_reading::read_address(v.bytes(request, 1), lent));
    }
    policy_calls(request, v, lent)
}
