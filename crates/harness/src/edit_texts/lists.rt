// Calls that write by change lists: `run`, `fold`, `fold2`.
use crate::edit_texts::answers::Answer;
use crate::edit_texts::listings::listing_calls;
use crate::requests::{Values, asks};
use crate::texts::Room;

pub(crate) fn list_calls(request: &Room, v: Values, lent: &mut [u8]) -> Answer {
    let first = v.bytes(request, 1);
    if asks(request, b"run bbn") {
        return Answer::Wrote(changes::run(first, v.bytes(request, 2), lent));
    }
    if asks(request, b"fold bn") {
        return Answer::Wrote(changes::fold(first, lent));
    }
    if asks(request, b"fold2 bbn") {
        return Answer::Wrote(changes::fold_two(first, v.bytes(request, 2), lent));
    }
    listing_calls(request, v, lent)
}
