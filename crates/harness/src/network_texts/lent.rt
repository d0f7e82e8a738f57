// Tables of Network Data that are lent: the pattern that fills them before, their text, and whether what had to stay has changed.
use crate::answers::Put;
use crate::network_texts::Table;
use crate::network_texts::rows::flags;
use crate::texts::{PATTERN, Room, put_byte};
use network_bridge::{PLACES, Tables};
use network_data::{BorderRouterEntry, Counts, HasRouteEntry, PrefixEntry};

pub(crate) fn no_prefix() -> PrefixEntry {
    PrefixEntry {
        domain_id: PATTERN,
        prefix_bit_length: PATTERN,
        prefix: [PATTERN; 32],
        six_low_pan_context: None,
        has_routes: PATTERN as usize,
        border_routers: PATTERN as usize,
    }
}

pub(crate) fn no_route() -> HasRouteEntry {
    HasRouteEntry {
        rloc16: 0xA5A5,
        router_preference: PATTERN,
        is_nat64: true,
    }
}

pub(crate) fn no_border() -> BorderRouterEntry {
    BorderRouterEntry {
        rloc16: 0xA5A5,
        prefix_preference: PATTERN,
        is_preferred: true,
        is_slaac: false,
        is_dhcp: true,
        is_configure: false,
        is_default_route: true,
        is_on_mesh: false,
        is_nd_dns: true,
        is_dp: false,
    }
}

// Whether a record is still the pattern.
fn prefix_stays(p: PrefixEntry) -> bool {
    p.domain_id == PATTERN
        && p.prefix_bit_length == PATTERN
        && p.has_routes == usize::from(PATTERN)
        && p.border_routers == usize::from(PATTERN)
        && p.six_low_pan_context.is_none()
        && p.prefix == [PATTERN; 32]
}

fn route_stays(e: HasRouteEntry) -> bool {
    e.rloc16 == 0xA5A5 && e.router_preference == PATTERN && e.is_nat64
}

fn border_stays(e: BorderRouterEntry) -> bool {
    e.rloc16 == 0xA5A5 && e.prefix_preference == PATTERN && flags(e) == *b"10101010"
}

// Whether the records at a place are still the pattern, of each table if they lie past its count.
fn stays_at(tables: Tables, counts: Counts, k: usize) -> bool {
    if k >= PLACES {
        return true;
    }
    let prefix = tables.prefixes[k];
    let route = tables.has_route[k];
    let border = tables.border_routers[k];
    (k < counts.prefixes || prefix_stays(prefix))
        && (k < counts.has_routes || route_stays(route))
        && (k < counts.border_routers || border_stays(border))
}

pub(crate) fn changed(tables: Tables, counts: Counts) -> bool {
    for k in 0..PLACES {
        if !stays_at(tables, counts, k) {
            return true;
        }
    }
    false
}

fn put_record(text: &mut Room, at: usize, table: Table, tables: Tables, k: usize) -> usize {
    if k >= PLACES {
        return at;
    }
    match table {
        Table::Prefixes => {
            let entry = tables.prefixes[k];
            entry.put(text, at)
        }
        Table::HasRoutes => {
            let entry = tables.has_route[k];
            entry.put(text, at)
        }
        Table::BorderRouters => {
            let entry = tables.border_routers[k];
            entry.put(text, at)
        }
    }
}

// The first n records, or `-` for none.
pub(crate) fn put_table(
    text: &mut Room,
    at: usize,
    table: Table,
    tables: Tables,
    n: usize,
) -> usize {
    if n == 0 {
        return put_byte(text, at, b'-');
    }
    let mut next = put_record(text, at, table, tables, 0);
    for k in 1..n {
        let slash = put_byte(text, next, b'/');
        next = put_record(text, slash, table, tables, k);
    }
    next
}
