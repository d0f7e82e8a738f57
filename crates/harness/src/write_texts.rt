// The text of `write`: a record and its tables as the words of the line say them, written through the bridge.
mod cells;
mod fields;
mod fits;
mod lent_tables;
mod record;
mod rows;

use crate::edit_texts::lent::{lend, put_written};
use crate::requests::{Values, asks};
use crate::texts::Room;
use fields::{Fields, fields_of};
use lent_tables::{route64_of, tables_of};
use network_bridge::PLACES;
use record::record_of;
use refusal::Refusal;
use rows::rows_of;
use writing_bridge::{CHILD_PLACES, LIST_PLACES, Lengths};

// Every place of each table is lent, also those past the rows that the line has: the record says how many are used.
fn all_places() -> Lengths {
    Lengths {
        prefixes: PLACES,
        has_route: PLACES,
        border_routers: PLACES,
        children: CHILD_PLACES,
        lists: LIST_PLACES,
    }
}

// Makes the call. The bytes that the words spell are in the request, which is lent for the parts.
fn write_made(line: &[u8], request: &Room, f: Fields, lent: &mut [u8]) -> Result<usize, Refusal> {
    let net_diag = record_of(line, f);
    let route64 = route64_of(line, request, f);
    let tables = tables_of(line, request, f);
    let rows = rows_of(line, f);
    writing_bridge::write(net_diag, request, route64, tables, rows, all_places(), lent)
}

fn put_made(
    line: &[u8],
    request: &Room,
    f: Fields,
    cap: u64,
    out: &mut [u8],
    text: &mut Room,
    at: usize,
) -> usize {
    let n = lend(out, cap);
    let written = write_made(line, request, f, &mut out[0..n]);
    put_written(text, at, written, &out[0..n])
}

// Puts the answer to a request, or nothing where it is not for this call or cannot be read.
pub(crate) fn answer(
    line: &[u8],
    request: &mut Room,
    v: Values,
    out: &mut [u8],
    text: &mut Room,
    at: usize,
) -> usize {
    if !asks(request, b"write n*") {
        return at;
    }
    let f = fields_of(line, request, v);
    if !f.good {
        return at;
    }
    put_made(line, request, f, v.number(1), out, text, at)
}
