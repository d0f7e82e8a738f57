// The tables of a `write` line that are Network Data's, and its Route64. Places past the rows keep the pattern, which no row may be.
use crate::network_texts::lent::{no_border, no_prefix, no_route};
use crate::requests::Span;
use crate::texts::{PATTERN, Room, part};
use crate::write_texts::cells::{
    after, bit, byte, cell, count_rows, first_of, is_none, number, short, word_of,
};
use crate::write_texts::fields::Fields;
use crate::write_texts::record::length_of;
use network_bridge::Tables;
use network_data::{BorderRouterEntry, HasRouteEntry, PrefixEntry, SixLowPanContext};
use route64::{Route64, RouteDataEntry};

// The bytes that a cell spells, as many as an array of 32 takes, with zeros after them.
fn bytes_of(request: &Room, s: Span) -> [u8; 32] {
    let bytes = part(request, s.start / 2, length_of(s));
    let mut array = [0; 32];
    for (place, b) in array.iter_mut().zip(bytes) {
        *place = *b;
    }
    array
}

fn context_of(line: &[u8], s: Span) -> Option<SixLowPanContext> {
    if is_none(word_of(line, s)) {
        return None;
    }
    Some(SixLowPanContext {
        is_compress: byte(line, cell(line, s, b'.', 0)) == 1,
        context_id: byte(line, cell(line, s, b'.', 1)),
        context_length: byte(line, cell(line, s, b'.', 2)),
    })
}

// How many HasRoute rows a prefix asks for. A line can say bytes that are not the bit length over 8 rounded up, and a record cannot: it is then made to
// ask for more rows than any table has, so that it contradicts itself all the same, and the library gives that its number and its turn.
fn asked_routes(line: &[u8], row: Span) -> usize {
    let bits = byte(line, cell(line, row, b':', 1)) as usize;
    if length_of(cell(line, row, b':', 2)) != (bits + 7) / 8 {
        return usize::MAX;
    }
    number(line, cell(line, row, b':', 4)) as usize
}

fn prefix_of(line: &[u8], request: &Room, row: Span) -> PrefixEntry {
    let prefix = bytes_of(request, cell(line, row, b':', 2));
    let context = context_of(line, cell(line, row, b':', 3));
    PrefixEntry {
        domain_id: byte(line, cell(line, row, b':', 0)),
        prefix_bit_length: byte(line, cell(line, row, b':', 1)),
        prefix,
        six_low_pan_context: context,
        has_routes: asked_routes(line, row),
        border_routers: number(line, cell(line, row, b':', 5)) as usize,
    }
}

fn has_route_of(line: &[u8], row: Span) -> HasRouteEntry {
    HasRouteEntry {
        rloc16: short(line, cell(line, row, b':', 0)),
        router_preference: byte(line, cell(line, row, b':', 1)),
        is_nat64: byte(line, cell(line, row, b':', 2)) == 1,
    }
}

fn border_router_of(line: &[u8], row: Span) -> BorderRouterEntry {
    let flags = cell(line, row, b':', 2);
    BorderRouterEntry {
        rloc16: short(line, cell(line, row, b':', 0)),
        prefix_preference: byte(line, cell(line, row, b':', 1)),
        is_preferred: bit(line, flags, 0),
        is_slaac: bit(line, flags, 1),
        is_dhcp: bit(line, flags, 2),
        is_configure: bit(line, flags, 3),
        is_default_route: bit(line, flags, 4),
        is_on_mesh: bit(line, flags, 5),
        is_nd_dns: bit(line, flags, 6),
        is_dp: bit(line, flags, 7),
    }
}

// As many rows as there are places for.
fn table_of<T: Copy, const N: usize, F: Fn(&[u8], Span) -> T>(
    line: &[u8],
    s: Span,
    unused: T,
    read: F,
) -> [T; N]
    requires { F.IsAlwaysCallable read }
{
    let mut table = [unused; N];
    let n = count_rows(line, s).min(N);
    let mut at = s.start;
    for place in &mut table[..n] {
        let row = first_of(line, at, s.end, b'/');
        *place = read(line, row);
        at = after(row, s.end);
    }
    table
}

pub(crate) fn tables_of(line: &[u8], request: &Room, f: Fields) -> Tables {
    let s = f.text(diag_rules::NETWORK_DATA);
    let prefixes = cell(line, s, b'|', 0);
    let has_route = cell(line, s, b'|', 1);
    let border_routers = cell(line, s, b'|', 2);
    Tables {
        prefixes: table_of(
            line,
            prefixes,
            no_prefix(),
            |text, row| prefix_of(text, request, row),
        ),
        has_route: table_of(line, has_route, no_route(), has_route_of),
        border_routers: table_of(line, border_routers, no_border(), border_router_of),
    }
}

fn route_of(line: &[u8], row: Span) -> RouteDataEntry {
    RouteDataEntry {
        router_id: byte(line, cell(line, row, b':', 0)),
        outgoing_link_quality: byte(line, cell(line, row, b':', 1)),
        incoming_link_quality: byte(line, cell(line, row, b':', 2)),
        route_cost: byte(line, cell(line, row, b':', 3)),
    }
}

fn no_row() -> RouteDataEntry {
    RouteDataEntry {
        router_id: PATTERN,
        outgoing_link_quality: PATTERN,
        incoming_link_quality: PATTERN,
        route_cost: PATTERN,
    }
}

// As many rows as the line has are counted; 64 there are places for.
pub(crate) fn route64_of(line: &[u8], request: &Room, f: Fields) -> Route64 {
    let s = f.text(diag_rules::ROUTE64);
    let m = bytes_of(request, cell(line, s, b',', 1));
    let rows = cell(line, s, b',', 2);
    Route64 {
        id_sequence: byte(line, cell(line, s, b',', 0)),
        mask: [m[0], m[1], m[2], m[3], m[4], m[5], m[6], m[7]],
        count: count_rows(line, rows),
        route_data: table_of(line, rows, no_row(), route_of),
    }
}
