// The fields of a payload's record, types ascending.
use crate::answers::Put;
use crate::network_texts::Table;
use crate::texts::{Room, part, put_byte, put_hex, put_name};
use crate::value_texts::{Rows, put_route64_head, put_rows};
use diag::{NetDiagData, NetworkDataPart};
use diag_rows::Part;
use network_data::Counts;

// Here and below: nothing where the field is absent.
fn put_bytes(text: &mut Room, at: usize, ty: u8, payload: &[u8], field: Option<Part>) -> usize {
    match field {
        Some(Part { start, len }) => {
            let name = put_name(text, at, ty);
            put_hex(text, name, part(payload, start, len))
        }
        None => at,
    }
}

fn put_field<T: Put>(text: &mut Room, at: usize, ty: u8, field: Option<T>) -> usize {
    match field {
        Some(x) => {
            let name = put_name(text, at, ty);
            x.put(text, name)
        }
        None => at,
    }
}

// A record's part can be read again.
fn put_routes(text: &mut Room, at: usize, value: &[u8]) -> usize {
    match route64::decode_route64(value, 0) {
        Ok(route) => {
            let name = put_name(text, at, diag_rules::ROUTE64);
            let head = put_route64_head(text, name, route);
            put_rows(text, head, Rows::Routes, value, route.count)
        }
        Err(_) => at,
    }
}

fn put_routes_field(text: &mut Room, at: usize, payload: &[u8], field: Option<Part>) -> usize {
    match field {
        Some(Part { start, len }) => put_routes(text, at, part(payload, start, len)),
        None => at,
    }
}

// The records as the calls by number hand them out; those of the tables are what `nd` shows.
fn put_network(text: &mut Room, at: usize, value: &[u8], counts: Counts) -> usize {
    let name = put_name(text, at, diag_rules::NETWORK_DATA);
    let prefixes = put_rows(
        text,
        name,
        Rows::Network(Table::Prefixes),
        value,
        counts.prefixes,
    );
    let first = put_byte(text, prefixes, b'|');
    let routes = put_rows(
        text,
        first,
        Rows::Network(Table::HasRoutes),
        value,
        counts.has_routes,
    );
    let second = put_byte(text, routes, b'|');
    put_rows(
        text,
        second,
        Rows::Network(Table::BorderRouters),
        value,
        counts.border_routers,
    )
}

fn put_network_field(
    text: &mut Room,
    at: usize,
    payload: &[u8],
    field: Option<NetworkDataPart>,
) -> usize {
    match field {
        Some(x) => {
            let counts = x.counts;
            put_network(text, at, part(payload, x.start, x.len), counts)
        }
        None => at,
    }
}

fn put_children_field(text: &mut Room, at: usize, payload: &[u8], field: Option<Part>) -> usize {
    match field {
        Some(Part { start, len }) => {
            let name = put_name(text, at, diag_rules::CHILD_TABLE);
            put_rows(
                text,
                name,
                Rows::Children,
                part(payload, start, len),
                len / 3,
            )
        }
        None => at,
    }
}

fn put_lists_field(text: &mut Room, at: usize, payload: &[u8], n: usize) -> usize {
    if n == 0 {
        return at;
    }
    let name = put_name(text, at, diag_rules::CHILD_IPV6_ADDRESSES);
    put_rows(text, name, Rows::Lists, payload, n)
}

// Types 0 to 4.
pub(crate) fn put_first(text: &mut Room, at: usize, payload: &[u8], d: NetDiagData) -> usize {
    let a = put_bytes(
        text,
        at,
        diag_rules::EXT_MAC_ADDRESS,
        payload,
        d.ext_mac_addr,
    );
    let b = put_field(text, a, diag_rules::MAC_ADDRESS, d.mac_addr);
    let c = put_field(text, b, diag_rules::MODE, d.mode);
    let e = put_field(text, c, diag_rules::TIMEOUT, d.timeout);
    put_field(text, e, diag_rules::CONNECTIVITY, d.connectivity)
}

// Types 5 to 9.
pub(crate) fn put_second(text: &mut Room, at: usize, payload: &[u8], d: NetDiagData) -> usize {
    let a = put_routes_field(text, at, payload, d.route64);
    let b = put_field(text, a, diag_rules::LEADER_DATA, d.leader_data);
    let c = put_network_field(text, b, payload, d.network_data);
    let e = put_bytes(text, c, diag_rules::IPV6_ADDRESSES, payload, d.addresses);
    put_field(text, e, diag_rules::MAC_COUNTERS, d.mac_counters)
}

// Types 14 to 30.
pub(crate) fn put_third(text: &mut Room, at: usize, payload: &[u8], d: NetDiagData) -> usize {
    let a = put_field(text, at, diag_rules::BATTERY_LEVEL, d.battery_level);
    let b = put_field(text, a, diag_rules::SUPPLY_VOLTAGE, d.supply_voltage);
    let c = put_children_field(text, b, payload, d.child_table);
    let e = put_bytes(text, c, diag_rules::CHANNEL_PAGES, payload, d.channel_pages);
    let f = put_bytes(text, e, diag_rules::TYPE_LIST, payload, d.type_list);
    let g = put_bytes(text, f, diag_rules::EUI64, payload, d.eui64);
    put_lists_field(text, g, payload, d.child_ipv6_addresses)
}
