// The rows of a diagnostic record as one number, each read by the library's call for it.
ghost use Rattle.std.specs.Prelude.{◌≡◌, MatchOption};
ghost use Rattle.std.specs.Fn.{FnOnceReturnsAt};
ghost use Rattle.diag_entries.specs.Answers.{bytes_at};
ghost use Rattle.diag.specs.Diag.{decode};
ghost use Rattle.diag.specs.Answers.{diag_of};
ghost use Rattle.refusal.specs.Answer.{given};
ghost use Rattle.refusal.specs.Results.{option_of};
ghost use Rattle.payload_sums.specs.Rows.{route_sum, mask_sum, routes_sum, Counted, route64_sum, routes, child_sum, child_at, children, address_at, addresses_sum, list_of, lists, payload_sum, Inside};

use crate::sums::{parts_sum, values_sum};
use diag::NetDiagData;
use diag_rows::{ChildTableEntry, Part};
use route64::{Route64, RouteDataEntry};
use value_sums::{mode_sum, plus};

fn route_sum(r: RouteDataEntry) -> u64
    ensures { result ≡ route_sum r }
{
    let mut n = plus(0, r.router_id as u64);
    n = plus(n, r.outgoing_link_quality as u64);
    n = plus(n, r.incoming_link_quality as u64);
    plus(n, r.route_cost as u64)
}

fn mask_sum(mask: [u8; 8]) -> u64
    ensures { result ≡ mask_sum mask }
{
    let mut n: u64 = 0;
    for b in &mask {
        n = plus(n, u64::from(*b));
    }
    n
}

// The rows that are counted are read: those past them are zeros, and add nothing.
fn routes_sum(rows: [RouteDataEntry; 64], count: usize) -> u64
    requires { Counted rows count }
    ensures { result ≡ routes_sum rows }
{
    let mut n: u64 = 0;
    for k in 0..count {
        n = plus(n, route_sum(rows[k]));
    }
    n
}

fn route64_sum(r: Route64) -> u64
    requires { Counted r.route_data r.count }
    ensures { result ≡ route64_sum r }
{
    let n = plus(plus(0, u64::from(r.id_sequence)), mask_sum(r.mask));
    plus(n, routes_sum(r.route_data, r.count))
}

fn routes(v: &[u8]) -> u64
    ensures { result ≡ routes v.now }
{
    route64_sum(route64::decode_route64(v, 0).unwrap_or_default())
}

fn child_sum(c: ChildTableEntry) -> u64
    ensures { result ≡ child_sum c }
{
    let mut n = plus(0, c.timeout_exponent as u64);
    n = plus(n, c.incoming_link_quality as u64);
    n = plus(n, c.child_id as u64);
    plus(n, mode_sum(c.mode))
}

fn child_at(v: &[u8], k: usize) -> u64
    ensures { result ≡ child_at v.now k }
{
    match diag_rows::child_row(v, k) {
        Ok(Some(row)) => child_sum(row),
        Ok(None) => 0,
        Err(_) => 0,
    }
}

fn children_sum(v: &[u8]) -> u64
    ensures { result ≡ children v.now }
{
    let mut n: u64 = 0;
    for k in 0..v.len() / diag_rules::CHILD_ENTRY_LEN {
        n = plus(n, child_at(v, k));
    }
    n
}

fn address_at(v: &[u8], k: usize) -> u64
    ensures { result ≡ address_at v.now k }
{
    let a = diag_rows::address(v, k);
    if a.len() > 15 {
        return u64::from(a[15]);
    }
    0
}

fn addresses_sum(v: &[u8]) -> u64
    ensures { result ≡ addresses_sum v.now }
{
    let mut n: u64 = 0;
    for k in 0..v.len() / 16 {
        n = plus(n, address_at(v, k));
    }
    n
}

// What f makes of a value that is a part of the payload.
fn in_part<F: FnOnce(&[u8]) -> u64>(payload: &[u8], part: Option<Part>, f: F) -> u64
    requires within { Inside payload.now (option_of part) }
    requires callable { F.IsAlwaysCallable f }
    ensures { MatchOption part (result ≡ 0) (λ p. FnOnceReturnsAt F.FnOnce f (bytes_at payload.now p.start p.len) result) }
{
    match part {
        Some(Part { start, len }) => f(&payload[start..start + len]),
        None => 0,
    }
}

fn list_sum(v: &[u8]) -> u64
    ensures { result ≡ list_of v.now }
{
    match diag_rows::decode_child_ipv6_addresses(v, 0) {
        Ok(x) => {
            let n = plus(plus(0, u64::from(x.rloc16)), u64::from(x.child_id));
            plus(n, addresses_sum(&v[x.start..x.start + x.len]))
        }
        Err(_) => 0,
    }
}

fn lists_sum(payload: &[u8]) -> u64
    ensures { result ≡ lists payload.now }
{
    let mut n: u64 = 0;
    for entry in tlv::entries(payload) {
        if entry.ty == diag_rules::CHILD_IPV6_ADDRESSES {
            n = plus(n, list_sum(entry.value));
        }
    }
    n
}

// The record of a payload, and all rows of it.
pub(crate) fn payload_sum(payload: &[u8], d: NetDiagData) -> u64
    requires { given (diag_of payload.now d) ≡ decode payload.now }
    ensures { result ≡ payload_sum payload.now (diag_of payload.now d) }
{
    let mut n = plus(0, values_sum(payload, d));
    n = plus(n, parts_sum(payload, d));
    n = plus(n, in_part(payload, d.route64, routes));
    n = plus(n, in_part(payload, d.child_table, children_sum));
    n = plus(n, in_part(payload, d.addresses, addresses_sum));
    plus(n, lists_sum(payload))
}
