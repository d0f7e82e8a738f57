// Edits with an index beside the dataset, which write into two outputs: `ixset`, `ixremove`.
use crate::edit_texts::lent::{changed, lend};
use crate::requests::{Values, asks};
use crate::texts::{Room, part_of, put_bytes_value, put_dirty, put_hex, put_refusal, put_text};
use dataset_index::INDEX_BYTES;
use refusal::Refusal;

// What can be lent for an index: more than it has.
const LENT_INDEX: usize = 2 * INDEX_BYTES;

// What was written into both, and whether anything after it, or on a refusal anything at all, is no longer as it was lent.
fn put_both(
    text: &mut Room,
    at: usize,
    written: Result<usize, Refusal>,
    lent: &[u8],
    index: &[u8],
) -> usize {
    match written {
        Ok(n) => {
            let dataset = put_bytes_value(text, at, part_of(lent, 0, n));
            let blank = put_text(text, dataset, b" ");
            let end = put_hex(text, blank, part_of(index, 0, INDEX_BYTES));
            put_dirty(text, end, changed(lent, n) | changed(index, INDEX_BYTES))
        }
        Err(r) => {
            let end = put_refusal(text, at, r);
            put_dirty(text, end, changed(lent, 0) | changed(index, 0))
        }
    }
}

fn put_set_with_index(
    request: &Room,
    v: Values,
    out: &mut [u8],
    index: &mut [u8],
    text: &mut Room,
    at: usize,
) -> usize {
    let n = lend(out, v.number(5));
    let m = lend(index, v.cap);
    let written = index_edits::set_raw(
        v.bytes(request, 3),
        v.bytes(request, 4),
        v.type_byte(1),
        v.bytes(request, 2),
        &mut out[0..n],
        &mut index[0..m],
    );
    put_both(text, at, written, &out[0..n], &index[0..m])
}

fn put_removed_with_index(
    request: &Room,
    v: Values,
    out: &mut [u8],
    index: &mut [u8],
    text: &mut Room,
    at: usize,
) -> usize {
    let n = lend(out, v.number(4));
    let m = lend(index, v.cap);
    let written = index_edits::remove_all(
        v.bytes(request, 2),
        v.bytes(request, 3),
        v.type_byte(1),
        &mut out[0..n],
        &mut index[0..m],
    );
    put_both(text, at, written, &out[0..n], &index[0..m])
}

// Puts the answer to a request, or nothing where it is for neither of these calls.
pub(crate) fn indexed_texts(
    request: &Room,
    v: Values,
    out: &mut [u8],
    text: &mut Room,
    at: usize,
) -> usize {
    let mut index = [0u8; LENT_INDEX];
    if asks(request, b"ixset tbbbnn") {
        return put_set_with_index(request, v, out, &mut index, text, at);
    }
    if asks(request, b"ixremove tbbnn") {
        return put_removed_with_index(request, v, out, &mut index, text, at);
    }
    at
}
