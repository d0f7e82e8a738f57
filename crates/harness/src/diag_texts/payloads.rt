// The record of a whole payload, `diag`.
use crate::diag_texts::put_fields;
use crate::network_texts::{filled, places, put_left};
use crate::requests::{Values, asks};
use crate::texts::{Room, put_refusal};
use diag::NetworkDataPart;
use network_data::Counts;

fn counts_of(field: Option<NetworkDataPart>) -> Counts {
    match field {
        Some(x) => x.counts,
        None => places(0, 0, 0),
    }
}

// What `diag_tables::decode` answers, with tables lent that are filled with a pattern.
fn put_record(text: &mut Room, at: usize, payload: &[u8], lent: Counts) -> usize {
    let left = diag_bridge::decode(
        payload,
        filled(),
        lent.prefixes,
        lent.has_routes,
        lent.border_routers,
    );
    let answer = left.answer;
    let tables = left.tables;
    match answer {
        Ok(d) => {
            let network_data = d.network_data;
            let end = put_fields(text, at, payload, d);
            put_left(text, end, tables, counts_of(network_data))
        }
        Err(r) => {
            let end = put_refusal(text, at, r);
            put_left(text, end, tables, places(0, 0, 0))
        }
    }
}

pub(crate) fn payload_texts(request: &Room, v: Values, text: &mut Room, at: usize) -> usize {
    if asks(request, b"diag bnnn") {
        return put_record(
            text,
            at,
            v.bytes(request, 1),
            places(v.number(2), v.number(3), v.number(4)),
        );
    }
    at
}
