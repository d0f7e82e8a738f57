// Calls on hex text: `hexbytes`, `hexframe`.
use crate::edit_texts::answers::Answer;
use crate::edit_texts::edits::edit_calls;
use crate::edit_texts::lent::{changed, lend, put_written};
use crate::entry_texts::put_frame;
use crate::requests::{Values, asks};
use crate::texts::{Room, part_of, put_dirty};
use refusal::Refusal;

// What was decoded into the bytes that were lent, as `frame` answers for it.
fn put_decoded(text: &mut Room, at: usize, written: Result<usize, Refusal>, lent: &[u8]) -> usize {
    match written {
        Ok(n) => {
            let end = put_frame(text, at, part_of(lent, 0, n));
            put_dirty(text, end, changed(lent, n))
        }
        _ => put_written(text, at, written, lent),
    }
}

pub(crate) fn put_hexframe(text: &mut Room, at: usize, digits: &[u8], out: &mut [u8]) -> usize {
    let n = lend(out, refusal::MAX_BYTES as u64);
    let written = base16::decode(digits, &mut out[0..n]);
    put_decoded(text, at, written, &out[0..n])
}

pub(crate) fn hex_calls(request: &Room, v: Values, lent: &mut [u8]) -> Answer {
    if asks(request, b"hexbytes bn") {
        return Answer::Wrote(base16::decode(v.bytes(request, 1), lent));
    }
    edit_calls(request, v, lent)
}
