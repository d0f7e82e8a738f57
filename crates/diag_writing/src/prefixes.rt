// Prefixes of Network Data, each with its rows, into an output that has room for them.
ghost use Rattle.std.specs.Prelude.{◌≡◌, [], ◌∷◌, ◌+◌, ◌*◌, ◌%◌, ◌≤◌, length, take, drop};
ghost use Rattle.refusal.specs.Output.{put};
ghost use Rattle.refusal.specs.Each.{bit};
ghost use Rattle.network_writing.specs.Encode.{network_bytes};
ghost use Rattle.network_writing.specs.Tables.{prefixes_of, routes_asked, borders_asked};
ghost use Rattle.diag_writing.specs.Pieces.{rows_size, context_size, value_size, rows_mark, head_bytes, border_mark, tail_bytes, prefix_bytes, Few};

use crate::rows::{put_borders, put_routes};
use crate::values::weight;
use network_data::{BorderRouterEntry, HasRouteEntry, PrefixEntry, SixLowPanContext};
use writing_walks::Cursor;

// How many bytes the TLV of n rows takes, which have so many bytes.
#[tactic(auto, unfolding(crate::specs::Pieces::rows_size))]
fn rows_size(n: usize, bytes: usize) -> usize
    requires { bytes ≤ 384 }
    ensures { (result ≡ rows_size n bytes) × (result ≤ 386) }
{
    if n == 0 { 0 } else { 2 + bytes }
}

#[tactic(auto, unfolding(crate::specs::Pieces::context_size))]
fn context_size(x: Option<SixLowPanContext>) -> usize
    ensures { (result ≡ context_size x) × (result ≤ 4) }
{
    match x {
        Some(_) => 4,
        None => 0,
    }
}

// How many bytes the value of a prefix takes.
pub(crate) fn value_size(e: PrefixEntry) -> usize
    requires { Few e }
    ensures { result ≡ value_size e }
{
    2 + (e.prefix_bit_length as usize + 7) / 8
        + (rows_size(e.has_routes, e.has_routes * 3)
            + (rows_size(e.border_routers, e.border_routers * 4)
                + context_size(e.six_low_pan_context)))
}

// The two bytes before a value of n bytes.
fn put_mark(mark: u8, n: usize, out: &mut [u8], at: usize) -> usize
    requires { at + 2 ≤ length out.old }
    ensures { (result ≡ at + 2) × (out.new ≡ put out.old at (mark ∷ (n % 256) ∷ [])) }
{
    out[at] = mark;
    out[at + 1] = (n % 256) as u8;
    at + 2
}

// Those before n rows, which have so many bytes; nothing where there are none.
fn put_rows_mark(mark: u8, n: usize, bytes: usize, out: &mut [u8], at: usize) -> usize
    requires { at + length (rows_mark mark n bytes) ≤ length out.old }
    ensures { (result ≡ at + length (rows_mark mark n bytes)) × (out.new ≡ put out.old at (rows_mark mark n bytes)) }
{
    if n == 0 {
        at
    } else {
        put_mark(mark, bytes, out, at)
    }
}

// The first n bytes of a prefix's array.
fn put_front(bytes: [u8; 32], n: usize, out: &mut [u8], at: usize) -> usize
    requires { (n ≤ 32) × (at + n ≤ length out.old) }
    ensures { (result ≡ at + n) × (out.new ≡ put out.old at (take n bytes)) }
{
    copying::put_bytes(&bytes[0..n], out, at)
}

// A prefix up to its HasRoute rows.
fn put_head(e: PrefixEntry, out: &mut [u8], at: usize) -> usize
    requires { Few e × (at + length (head_bytes e) ≤ length out.old) }
    ensures { (result ≡ at + length (head_bytes e)) × (out.new ≡ put out.old at (head_bytes e)) }
{
    let bits = e.prefix_bit_length;
    let n = (bits as usize + 7) / 8;
    let start = put_mark(2, value_size(e), out, at);
    out[start] = e.domain_id;
    out[start + 1] = bits;
    let bytes = e.prefix;
    let next = put_front(bytes, n, out, start + 2);
    put_rows_mark(0, e.has_routes, e.has_routes * 3, out, next)
}

// What stands between its HasRoute rows and its BorderRouter rows.
fn put_border_mark(e: PrefixEntry, out: &mut [u8], at: usize) -> usize
    requires { Few e × (at + length (border_mark e) ≤ length out.old) }
    ensures { (result ≡ at + length (border_mark e)) × (out.new ≡ put out.old at (border_mark e)) }
{
    put_rows_mark(4, e.border_routers, e.border_routers * 4, out, at)
}

fn context_byte(c: SixLowPanContext) -> u8
    ensures { result ≡ bit c.is_compress 16 + c.context_id % 16 }
{
    weight(c.is_compress, 16) + c.context_id % 16
}

// What stands after its rows.
fn put_tail(e: PrefixEntry, out: &mut [u8], at: usize) -> usize
    requires { at + length (tail_bytes e) ≤ length out.old }
    ensures { (result ≡ at + length (tail_bytes e)) × (out.new ≡ put out.old at (tail_bytes e)) }
{
    let x = e.six_low_pan_context;
    match x {
        Some(c) => {
            let start = put_mark(6, 2, out, at);
            out[start] = context_byte(c);
            out[start + 1] = c.context_length;
            start + 2
        }
        None => at,
    }
}

// The cursor after a prefix that ends at a place.
fn after(c: Cursor, e: PrefixEntry, at: usize) -> Cursor
    requires { (c.route + e.has_routes ≤ 96) × (c.border + e.border_routers ≤ 96) }
    ensures { result ≡ record { at = at; route = c.route + e.has_routes; border = c.border + e.border_routers } }
{
    Cursor {
        at,
        route: c.route + e.has_routes,
        border: c.border + e.border_routers,
    }
}

// A prefix, whose rows stand in the tables from the cursor on.
fn put_prefix(
    e: PrefixEntry,
    routes: &[HasRouteEntry],
    borders: &[BorderRouterEntry],
    out: &mut [u8],
    c: Cursor,
) -> Cursor
    requires { (c.route + e.has_routes ≤ length routes.now) × (c.border + e.border_routers ≤ length borders.now) × (c.route + e.has_routes ≤ 96) × (c.border + e.border_routers ≤ 96) × (c.at + length (prefix_bytes e routes.now c.route borders.now c.border) ≤ length out.old) }
    ensures { (result ≡ record { at = c.at + length (prefix_bytes e routes.now c.route borders.now c.border); route = c.route + e.has_routes; border = c.border + e.border_routers }) × (out.new ≡ put out.old c.at (prefix_bytes e routes.now c.route borders.now c.border)) }
{
    let head = put_head(e, out, c.at);
    let mid = put_routes(&routes[c.route..c.route + e.has_routes], out, head);
    let next = put_border_mark(e, out, mid);
    let last = put_borders(&borders[c.border..c.border + e.border_routers], out, next);
    let end = put_tail(e, out, last);
    after(c, e, end)
}

// Prefixes, one after the other.
pub(crate) fn put_prefixes(
    prefixes: &[PrefixEntry],
    routes: &[HasRouteEntry],
    borders: &[BorderRouterEntry],
    out: &mut [u8],
    mut c: Cursor,
) -> Cursor
    requires { (c.route + routes_asked prefixes.now ≤ length routes.now) × (c.border + borders_asked prefixes.now ≤ length borders.now) × (c.route + routes_asked prefixes.now ≤ 96) × (c.border + borders_asked prefixes.now ≤ 96) × (c.at + length (network_bytes (prefixes_of prefixes.now (drop c.route routes.now) (drop c.border borders.now))) ≤ length out.old) }
    ensures { (result.at ≡ c.at + length (network_bytes (prefixes_of prefixes.now (drop c.route routes.now) (drop c.border borders.now)))) × (out.new ≡ put out.old c.at (network_bytes (prefixes_of prefixes.now (drop c.route routes.now) (drop c.border borders.now)))) }
{
    for e in prefixes {
        c = put_prefix(*e, routes, borders, out, c);
    }
    c
}
