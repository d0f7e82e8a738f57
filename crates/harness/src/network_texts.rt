// The texts of Network Data: `nd`, and what a whole payload has of it.
pub(crate) mod lent;
mod rows;

ghost use Rattle.std.specs.Prelude.{◌≡◌};
ghost use Rattle.network_data.specs.Rules.{counts};

use crate::answers::put_there;
use crate::requests::{Values, asks};
use crate::texts::{Room, put_byte, put_dirty, put_name, put_ok, put_refusal};
use lent::{changed, no_border, no_prefix, no_route, put_table};
use network_bridge::{Decoded, PLACES, Tables};
use network_data::Counts;

#[derive(Clone, Copy)]
pub(crate) enum Table {
    Prefixes,
    HasRoutes,
    BorderRouters,
}

// How many records are lent of each table.
pub(crate) fn places(prefixes: u64, has_routes: u64, border_routers: u64) -> Counts
    ensures { result ≡ counts prefixes has_routes border_routers }
{
    Counts {
        prefixes: prefixes as usize,
        has_routes: has_routes as usize,
        border_routers: border_routers as usize,
    }
}

// Tables to lend, filled with a pattern.
pub(crate) fn filled() -> Tables {
    let prefix = no_prefix();
    let route = no_route();
    let border = no_border();
    Tables {
        prefixes: [prefix; PLACES],
        has_route: [route; PLACES],
        border_routers: [border; PLACES],
    }
}

// What a call had to leave: the records past the counts.
pub(crate) fn put_left(text: &mut Room, at: usize, tables: Tables, counts: Counts) -> usize {
    put_dirty(text, at, changed(tables, counts))
}

// The text of a bare value's record by its number, as the call for it hands it out.
pub(crate) fn put_row(text: &mut Room, at: usize, table: Table, value: &[u8], k: usize) -> usize {
    match table {
        Table::Prefixes => put_there(text, at, network_tables::prefix_at(value, k)),
        Table::HasRoutes => put_there(text, at, network_tables::has_route_at(value, k)),
        Table::BorderRouters => put_there(text, at, network_tables::border_router_at(value, k)),
    }
}

fn decode(value: &[u8], lent: Counts) -> Decoded {
    network_bridge::decode(
        value,
        filled(),
        lent.prefixes,
        lent.has_routes,
        lent.border_routers,
    )
}

// The prefixes, the HasRoute rows and the BorderRouter rows.
fn put_tables(text: &mut Room, at: usize, tables: Tables, counts: Counts) -> usize {
    let name = put_name(text, at, diag_rules::NETWORK_DATA);
    let prefixes = put_table(text, name, Table::Prefixes, tables, counts.prefixes);
    let first = put_byte(text, prefixes, b'|');
    let routes = put_table(text, first, Table::HasRoutes, tables, counts.has_routes);
    let second = put_byte(text, routes, b'|');
    put_table(
        text,
        second,
        Table::BorderRouters,
        tables,
        counts.border_routers,
    )
}

// The value as a field: the records that `decode` left in the tables that were lent.
fn put_bare_network(text: &mut Room, at: usize, value: &[u8], lent: Counts) -> usize {
    let decoded = decode(value, lent);
    let answer = decoded.answer;
    let tables = decoded.tables;
    match answer {
        Ok(counts) => {
            let word = put_ok(text, at);
            let end = put_tables(text, word, tables, counts);
            put_left(text, end, tables, counts)
        }
        Err(r) => {
            let end = put_refusal(text, at, r);
            put_left(text, end, tables, places(0, 0, 0))
        }
    }
}

// Puts the answer to a request, or nothing where it is not for this call.
pub(crate) fn answer(request: &Room, v: Values, text: &mut Room, at: usize) -> usize {
    if asks(request, b"nd bnnn") {
        return put_bare_network(
            text,
            at,
            v.bytes(request, 1),
            places(v.number(2), v.number(3), v.number(4)),
        );
    }
    at
}
