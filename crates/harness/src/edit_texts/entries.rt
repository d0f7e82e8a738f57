// Calls that write entries: `rewrite`, `entry`, `header`, `push`.
use crate::edit_texts::answers::Answer;
use crate::edit_texts::hexes::hex_calls;
use crate::requests::{Values, asks};
use crate::texts::Room;

pub(crate) fn entry_calls(request: &Room, v: Values, lent: &mut [u8]) -> Answer {
    if asks(request, b"rewrite bn") {
        return Answer::Wrote(tlv_rewriting::rewrite(v.bytes(request, 1), lent));
    }
    if asks(request, b"entry tbn") {
        return Answer::Wrote(tlv_writing::write_entry(v.type_byte(1), v.bytes(request, 2), lent));
    }
    if asks(request, b"header tnn") {
        return Answer::Wrote(tlv_writing::encode_header(
            v.type_byte(1),
            v.number(2) as usize,
            lent,
        ));
    }
    if asks(request, b"push tbbn") {
        return Answer::Wrote(tlv_rewriting::push(
            v.bytes(request, 3),
            v.type_byte(1),
            v.bytes(request, 2),
            lent,
        ));
    }
    hex_calls(request, v, lent)
}
