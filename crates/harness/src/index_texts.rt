// The texts of an index beside a dataset: `ixload`, `ixquery` and `ixlook`, the query by an index that was not loaded.
use crate::entry_texts::put_part;
use crate::requests::{Values, asks};
use crate::texts::{Room, put_absent, put_ok, put_refusal};
use refusal::Refusal;

fn put_loaded(text: &mut Room, at: usize, loaded: Result<(), Refusal>) -> usize {
    match loaded {
        Ok(()) => put_ok(text, at),
        Err(r) => put_refusal(text, at, r),
    }
}

// The place is where the value of the entry that was found begins, the bytes are the part that was handed back.
fn put_looked(text: &mut Room, at: usize, ty: u8, s: &[u8], index: &[u8]) -> usize {
    match dataset_index::last_entry(s, index, ty) {
        Ok(Some(spot)) => put_part(
            text,
            at,
            b"ok ",
            dataset_index::last_value(s, index, ty),
            spot.start,
        ),
        Ok(None) => put_absent(text, at),
        Err(r) => put_refusal(text, at, r),
    }
}

// The index is loaded, and then it is asked.
fn put_queried(text: &mut Room, at: usize, ty: u8, s: &[u8], index: &[u8]) -> usize {
    match dataset_index::load(s, index) {
        Ok(()) => put_looked(text, at, ty, s, index),
        Err(r) => put_refusal(text, at, r),
    }
}

// Puts the answer to a request, or nothing where it is for none of these calls.
pub(crate) fn answer(request: &Room, v: Values, text: &mut Room, at: usize) -> usize {
    if asks(request, b"ixload bb") {
        let loaded = dataset_index::load(v.bytes(request, 1), v.bytes(request, 2));
        return put_loaded(text, at, loaded);
    }
    let s = v.bytes(request, 2);
    let index = v.bytes(request, 3);
    if asks(request, b"ixquery tbb") {
        return put_queried(text, at, v.type_byte(1), s, index);
    }
    if asks(request, b"ixlook tbb") {
        return put_looked(text, at, v.type_byte(1), s, index);
    }
    at
}
