// Calls that write listings: `flat`, `hexflat`, `nested`, `prog`.
use crate::edit_texts::addresses::address_calls;
use crate::edit_texts::answers::Answer;
use crate::edit_texts::lent::{lend, put_written};
use crate::requests::{Values, asks};
use crate::texts::Room;

pub(crate) fn put_report(text: &mut Room, at: usize, input: &[u8], out: &mut [u8]) -> usize {
    let n = lend(out, listing::REPORT_BYTES as u64);
    let written = listing::report_text(input, &mut out[0..n]);
    put_written(text, at, written, &out[0..n])
}

pub(crate) fn listing_calls(request: &Room, v: Values, lent: &mut [u8]) -> Answer {
    if asks(request, b"flat bn") {
        return Answer::Wrote(listing::list(v.bytes(request, 1), lent));
    }
    if asks(request, b"hexflat bn") {
        return Answer::Wrote(listing::list_hex(v.bytes(request, 1), lent));
    }
    if asks(request, b"nested bn") {
        return Answer::Wrote(nested_listing::list_nested(v.bytes(request, 1), lent));
    }
    address_calls(request, v, lent)
}
