// The texts of whole diagnostic payloads: `diag`, the fields of a record, and `pair`.
mod pairs;
mod payloads;
mod record;

use crate::requests::{Values, asks};
use crate::texts::{Room, put_ok, put_text};
use diag::NetDiagData;
use pairs::put_pairs;
use payloads::payload_texts;
use record::{put_first, put_second, put_third};

// `ok` and the fields, or `-` for none.
pub(crate) fn put_fields(text: &mut Room, at: usize, payload: &[u8], d: NetDiagData) -> usize {
    let word = put_ok(text, at);
    let first = put_first(text, word, payload, d);
    let second = put_second(text, first, payload, d);
    let end = put_third(text, second, payload, d);
    if end == word {
        return put_text(text, end, b" -");
    }
    end
}

// Puts the answer to a request, or nothing where it is for none of these calls.
pub(crate) fn answer(request: &Room, v: Values, text: &mut Room, at: usize) -> usize {
    if asks(request, b"pair bn") {
        return put_pairs(text, at, v.bytes(request, 1), v.number(2));
    }
    payload_texts(request, v, text, at)
}
