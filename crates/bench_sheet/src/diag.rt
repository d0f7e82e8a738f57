// The lines on diagnostic values: routes, a child, and Network Data.
use crate::sheet::{Score, judge, put_said};
use crate::text::{
    Room, empty, part_of, put, put_either, put_hex, put_number, put_refusal, put_word,
};
use diag_rows::ChildTableEntry;
use network_data::{HasRouteEntry, PrefixEntry};
use route64::{Route64, RouteDataEntry};
use std::io;

// A router and its route, as `, router 0 (2, 1, 15)`.
fn put_row(text: &mut Room, at: usize, row: RouteDataEntry) -> usize {
    let router = put_number(text, at, b", router ", row.router_id as u64);
    let outgoing = put_number(text, router, b" (", row.outgoing_link_quality as u64);
    let incoming = put_number(text, outgoing, b", ", row.incoming_link_quality as u64);
    let cost = put_number(text, incoming, b", ", row.route_cost as u64);
    put(text, cost, b")")
}

fn put_rows(text: &mut Room, at: usize, route: Route64) -> usize {
    let rows = route.route_data;
    let mut next = put_number(text, at, b"rows ", route.count as u64);
    for (k, row) in rows.iter().enumerate() {
        if k < route.count {
            next = put_row(text, next, *row);
        }
    }
    next
}

fn routes(score: Score, value: &[u8], stated: &[u8]) -> io::Result<Score> {
    let mut text = empty();
    let said = put_said(&mut text, b"Route64 ", value, b": ");
    let end = match route64::decode_route64(value, 0) {
        Ok(route) => put_rows(&mut text, said, route),
        Err(r) => put_refusal(&mut text, said, r),
    };
    judge(score, &mut text, said, end, stated)
}

fn put_child(text: &mut Room, at: usize, child: ChildTableEntry) -> usize {
    let exponent = put_number(text, at, b"exponent ", child.timeout_exponent as u64);
    let quality = put_number(
        text,
        exponent,
        b", quality ",
        child.incoming_link_quality as u64,
    );
    let id = put_number(text, quality, b", ID ", child.child_id as u64);
    let timeout = put_number(text, id, b", ", child.timeout_seconds() as u64);
    let receiver = put_either(
        text,
        timeout,
        child.mode.rx_on_when_idle,
        b" s, receiver on",
        b" s, receiver off",
    );
    put_either(
        text,
        receiver,
        child.mode.is_mtd,
        b", minimal device",
        b", full device",
    )
}

fn child(score: Score, value: &[u8], stated: &[u8]) -> io::Result<Score> {
    let mut text = empty();
    let said = put_said(&mut text, b"child row ", value, b": ");
    let end = match diag_rows::child_row(value, 0) {
        Ok(Some(c)) => put_child(&mut text, said, c),
        Ok(None) => put(&mut text, said, b"absent"),
        Err(r) => put_refusal(&mut text, said, r),
    };
    judge(score, &mut text, said, end, stated)
}

fn put_has_route(text: &mut Room, at: usize, row: HasRouteEntry) -> usize {
    let rloc = put_word(text, at, row.rloc16);
    let preference = put_number(text, rloc, b", ", row.router_preference as u64);
    put_either(text, preference, row.is_nat64, b", NAT64", b", no NAT64")
}

fn has_route(score: Score, value: &[u8], stated: &[u8]) -> io::Result<Score> {
    let mut text = empty();
    let said = put_said(&mut text, b"HasRoute of Network Data ", value, b": ");
    let end = match network_tables::has_route_at(value, 0) {
        Ok(Some(row)) => put_has_route(&mut text, said, row),
        Ok(None) => put(&mut text, said, b"absent"),
        Err(r) => put_refusal(&mut text, said, r),
    };
    judge(score, &mut text, said, end, stated)
}

// A prefix's bits and bytes.
fn put_prefix(text: &mut Room, at: usize, entry: PrefixEntry) -> usize {
    let bits = entry.prefix_bit_length as usize;
    let bytes = entry.prefix;
    let next = put_number(text, at, b": ", bits as u64);
    let word = put(text, next, b" bits ");
    put_hex(text, word, part_of(&bytes, 0, (bits + 7) / 8))
}

// How many prefixes, and the first.
fn put_prefixes(text: &mut Room, at: usize, value: &[u8], n: usize) -> usize {
    let count = put_number(text, at, b"prefixes ", n as u64);
    match network_tables::prefix_at(value, 0) {
        Ok(Some(entry)) => put_prefix(text, count, entry),
        _ => count,
    }
}

fn network(score: Score, value: &[u8], stated: &[u8]) -> io::Result<Score> {
    let mut text = empty();
    let said = put_said(&mut text, b"Network Data ", value, b": ");
    let end = match network_data::check(value, 0) {
        Ok(c) => put_prefixes(&mut text, said, value, c.prefixes),
        Err(r) => put_refusal(&mut text, said, r),
    };
    judge(score, &mut text, said, end, stated)
}

pub(crate) fn lines(score: Score) -> io::Result<Score> {
    // "Route64 of 9 bytes, zero mask: no rows."
    let mut s = routes(score, b"\x00\x00\x00\x00\x00\x00\x00\x00\x00", b"rows 0")?;
    // "`07 80 00 00 00 00 00 00 01 9F 24`: router 0 (2, 1, 15), router 63 (0, 2, 4). With `24` dropped: 4."
    s = routes(
        s,
        b"\x07\x80\x00\x00\x00\x00\x00\x00\x01\x9F\x24",
        b"rows 2, router 0 (2, 1, 15), router 63 (0, 2, 4)",
    )?;
    s = routes(
        s,
        b"\x07\x80\x00\x00\x00\x00\x00\x00\x01\x9F",
        b"refused 4 0 0",
    )?;
    // "Child row `81 05 08`: exponent 16, quality 0, ID 261, 4,096 s, receiver on, minimal device."
    s = child(
        s,
        b"\x81\x05\x08",
        b"exponent 16, quality 0, ID 261, 4096 s, receiver on, minimal device",
    )?;
    // "HasRoute `A8 00 60`: 0xA800, 1, NAT64.": the row in a prefix of no bits
    s = has_route(
        s,
        b"\x02\x07\x00\x00\x00\x03\xA8\x00\x60",
        b"0xA800, 1, NAT64",
    )?;
    // "Network Data `03 03 00 04 FD`: one 4-bit prefix; `03 02 00 04`: 5."
    s = network(s, b"\x03\x03\x00\x04\xFD", b"prefixes 1: 4 bits FD")?;
    network(s, b"\x03\x02\x00\x04", b"refused 5 0 0")
}
