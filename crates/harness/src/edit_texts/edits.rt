// Calls that edit a dataset, take it from hex text or to it, write its index or a mask item: `set`, `remove`, `hexdata`, `tohex`, `index`, `maskitem`.
use crate::edit_texts::answers::Answer;
use crate::edit_texts::lists::list_calls;
use crate::requests::{Values, asks};
use crate::texts::Room;

pub(crate) fn edit_calls(request: &Room, v: Values, lent: &mut [u8]) -> Answer {
    if asks(request, b"set tbbn") {
        return Answer::Wrote(dataset_edits::set_raw(
            v.bytes(request, 3),
            v.type_byte(1),
            v.bytes(request, 2),
            lent,
        ));
    }
    if asks(request, b"remove tbn") {
        return Answer::Wrote(dataset_edits::remove_all(v.bytes(request, 2), v.type_byte(1), lent));
    }
    if asks(request, b"hexdata bn") {
        return Answer::Wrote(dataset_hex::from_hex(v.bytes(request, 1), lent));
    }
    if asks(request, b"tohex bn") {
        return Answer::Wrote(dataset_hex::to_hex(v.bytes(request, 1), lent));
    }
    if asks(request, b"index bn") {
        return Answer::Wrote(dataset_index::build(v.bytes(request, 1), lent));
    }
    if asks(request, b"maskitem tbn") {
        return Answer::Wrote(channel_masks::write_mask_item(
            v.type_byte(1),
            v.bytes(request, 2),
            lent,
        ));
    }
    list_calls(request, v, lent)
}
