// A cursor on the rows of one kind: it goes through the inner TLVs of a type, prefix after prefix.
ghost use Rattle.std.specs.Prelude.{◌≡◌, ◌≤◌, ◌<◌, length};
ghost use Rattle.network_framing.specs.Frame.{walk_in};
ghost use Rattle.network_data.specs.Decode.{inner};
ghost use Rattle.network_tables.specs.Cursor.{rows_in, rows_out, first_row, next_row, RowHere, route_of, border_of};

use crate::records::Record;
use network_data::{
    BORDER_ROUTER_ENTRY_LEN, BorderRouterEntry, HAS_ROUTE_ENTRY_LEN, HasRouteEntry,
    NETWORK_DATA_BORDER_ROUTER, NETWORK_DATA_HAS_ROUTE, NETWORK_DATA_PREFIX,
};
use network_framing::{SubTlv, head_at, sub_at, sub_in};

// The next row, how many are left in its TLV, where that ends, and where its prefix ends. None are left where there is no row.
#[derive(Clone, Copy)]
pub(crate) struct Rows {
    pub(crate) at: usize,
    pub(crate) left: usize,
    pub(crate) stop: usize,
    pub(crate) end: usize,
}

fn no_rows() -> Rows
    ensures { result ≡ record { at = 0; left = 0; stop = 0; end = 0 } }
{
    Rows {
        at: 0,
        left: 0,
        stop: 0,
        end: 0,
    }
}

// The first row among the inner TLVs from a place on.
fn seek_in(s: &[u8], ty: u8, size: usize, from: usize, end: usize) -> Rows
    requires { (end ≤ length s.now) × (0 < size) }
    ensures { result ≡ rows_in ty size end (walk_in s.now from end).items }
{
    let mut at = from;
    while let SubTlv::Item { ty: t, start, len } = sub_in(s, at, end) {
        at = start + len;
        let n = len / size;
        if t == ty {
            if n > 0 {
                return Rows {
                    at: start,
                    left: n,
                    stop: at,
                    end,
                };
            }
        }
    }
    no_rows()
}

// The first row of a prefix.
fn seek_prefix(s: &[u8], ty: u8, size: usize, start: usize, end: usize) -> Rows
    requires { (end ≤ length s.now) × (0 < size) }
    ensures { result ≡ rows_in ty size end (inner s.now start end) }
{
    match head_at(s, start, end) {
        Some(at) => seek_in(s, ty, size, at, end),
        None => no_rows(),
    }
}

// The first row of the prefixes from a place on.
fn seek_out(s: &[u8], ty: u8, size: usize, from: usize) -> Rows
    requires { 0 < size }
    ensures { result ≡ rows_out ty size s.now (walk_in s.now from (length s.now)).items }
{
    let mut at = from;
    while let SubTlv::Item { ty: t, start, len } = sub_at(s, at) {
        at = start + len;
        if t == NETWORK_DATA_PREFIX {
            let c = seek_prefix(s, ty, size, start, at);
            if c.left > 0 {
                return c;
            }
        }
    }
    no_rows()
}

fn next_row(s: &[u8], ty: u8, size: usize, c: Rows) -> Rows
    requires { (RowHere size s.now c) × (0 < size) }
    ensures { result ≡ next_row ty size s.now c }
{
    if c.left > 1 {
        return Rows {
            at: c.at + size,
            left: c.left - 1,
            ..c
        };
    }
    let r = seek_in(s, ty, size, c.stop, c.end);
    if r.left > 0 {
        return r;
    }
    seek_out(s, ty, size, c.end)
}

impl Record for HasRouteEntry {
    type Cursor = Rows;

    ghost start = { first_row 0 3 };

    ghost here = { RowHere 3 };

    ghost read = { route_of };

    ghost after = { next_row 0 3 };

    fn first(s: &[u8]) -> Rows {
        seek_out(s, NETWORK_DATA_HAS_ROUTE, HAS_ROUTE_ENTRY_LEN, 0)
    }

    fn record(s: &[u8], c: Rows) -> HasRouteEntry {
        let f = s[c.at + 2];
        HasRouteEntry {
            rloc16: u16::from_be_bytes([s[c.at], s[c.at + 1]]),
            router_preference: f / 64,
            is_nat64: f / 32 % 2 == 1,
        }
    }

    fn next(s: &[u8], c: Rows) -> Rows {
        next_row(s, NETWORK_DATA_HAS_ROUTE, HAS_ROUTE_ENTRY_LEN, c)
    }
}

impl Record for BorderRouterEntry {
    type Cursor = Rows;

    ghost start = { first_row 2 4 };

    ghost here = { RowHere 4 };

    ghost read = { border_of };

    ghost after = { next_row 2 4 };

    fn first(s: &[u8]) -> Rows {
        seek_out(s, NETWORK_DATA_BORDER_ROUTER, BORDER_ROUTER_ENTRY_LEN, 0)
    }

    fn record(s: &[u8], c: Rows) -> BorderRouterEntry {
        let f = s[c.at + 2];
        let g = s[c.at + 3];
        BorderRouterEntry {
            rloc16: u16::from_be_bytes([s[c.at], s[c.at + 1]]),
            prefix_preference: f / 64,
            is_preferred: f / 32 % 2 == 1,
            is_slaac: f / 16 % 2 == 1,
            is_dhcp: f / 8 % 2 == 1,
            is_configure: f / 4 % 2 == 1,
            is_default_route: f / 2 % 2 == 1,
            is_on_mesh: f % 2 == 1,
            is_nd_dns: g / 128 == 1,
            is_dp: g / 64 % 2 == 1,
        }
    }

    fn next(s: &[u8], c: Rows) -> Rows {
        next_row(s, NETWORK_DATA_BORDER_ROUTER, BORDER_ROUTER_ENTRY_LEN, c)
    }
}
