// The texts of calls that write into an output which is lent: entries, hex text, edits, with an index too, change lists, listings, addresses, policies.
mod addresses;
mod answers;
mod edits;
mod entries;
mod hexes;
mod indexed;
pub(crate) mod lent;
mod listings;
mod lists;
mod policies;

use crate::requests::{Values, asks};
use crate::texts::Room;
use answers::put_answer;
use entries::entry_calls;
use hexes::put_hexframe;
use indexed::indexed_texts;
use lent::lend;
use listings::put_report;

// Calls that write into as many bytes as their last word says.
fn put_write(request: &Room, v: Values, out: &mut [u8], text: &mut Room, at: usize) -> usize {
    let n = lend(out, v.cap);
    let answer = entry_calls(request, v, &mut out[0..n]);
    put_answer(text, at, answer, &out[0..n])
}

// Puts the answer to a request, or nothing where it is for none of these calls. What they write is in `out`.
pub(crate) fn answer(
    request: &Room,
    v: Values,
    out: &mut [u8],
    text: &mut Room,
    at: usize,
) -> usize {
    let s = v.bytes(request, 1);
    if asks(request, b"hexframe b") {
        return put_hexframe(text, at, s, out);
    }
    if asks(request, b"prog b") {
        return put_report(text, at, s, out);
    }
    let indexed = indexed_texts(request, v, out, text, at);
    if indexed != at {
        return indexed;
    }
    put_write(request, v, out, text, at)
}
