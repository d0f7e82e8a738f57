// Diagnostic records as the bytes of their values: mode, Leader Data, MAC counters, a child row, a route; and whether their fields fit.
ghost use Rattle.std.specs.Prelude.{◌≡◌, ◌≤◌};
ghost use Rattle.refusal.specs.Each.{bit};
ghost use Rattle.value_writing.specs.Fits.{child_fits};
ghost use Rattle.value_writing.specs.Encode.{mode_byte, leader_bytes, counters_bytes, route_byte, child_bits, child_bytes};

use diag_rows::ChildTableEntry;
use diag_values::{LeaderData, MacCounters, ModeData};
use route64::RouteDataEntry;

// A bit of so much weight.
pub(crate) fn weight(b: bool, w: u8) -> u8
    ensures { (result ≡ bit b w) × (result ≤ w) }
{
    if b { w } else { 0 }
}

// Type 2.
pub(crate) fn mode_byte(m: ModeData) -> u8
    ensures { result ≡ mode_byte m }
{
    weight(m.rx_on_when_idle, 8) + weight(!m.is_mtd, 2) + weight(m.requires_full_network_data, 1)
}

// Type 6.
pub(crate) fn leader_bytes(l: LeaderData) -> [u8; 8]
    ensures { result ≡ leader_bytes l }
{
    let p = wire_bytes::u32_bytes(l.partition_id);
    [
        p[0],
        p[1],
        p[2],
        p[3],
        l.weighting,
        l.data_version,
        l.stable_data_version,
        l.router_id,
    ]
}

// One row of type 16. Each field is written with the bits that it has.
fn child_bits(c: ChildTableEntry) -> u16
    ensures { result ≡ child_bits c }
{
    let e = (c.timeout_exponent % 32) as u16;
    let q = (c.incoming_link_quality % 4) as u16;
    e * 2048 + q * 512 + c.child_id % 512
}

pub(crate) fn child_bytes(c: ChildTableEntry) -> [u8; 3]
    ensures { result ≡ child_bytes c }
{
    let bits = child_bits(c);
    [(bits / 256) as u8, (bits % 256) as u8, mode_byte(c.mode)]
}

// One route of type 5.
pub(crate) fn route_byte(r: RouteDataEntry) -> u8
    ensures { result ≡ route_byte r }
{
    r.outgoing_link_quality % 4 * 64 + r.incoming_link_quality % 4 * 16 + r.route_cost % 16
}

// Type 9.
pub(crate) fn counters_bytes(c: MacCounters) -> [u8; 36]
    ensures { result ≡ counters_bytes c }
{
    let a = wire_bytes::u32_bytes(c.if_in_unknown_protos);
    let b = wire_bytes::u32_bytes(c.if_in_errors);
    let d = wire_bytes::u32_bytes(c.if_out_errors);
    let e = wire_bytes::u32_bytes(c.if_in_ucast_pkts);
    let f = wire_bytes::u32_bytes(c.if_in_broadcast_pkts);
    let g = wire_bytes::u32_bytes(c.if_in_discards);
    let h = wire_bytes::u32_bytes(c.if_out_ucast_pkts);
    let i = wire_bytes::u32_bytes(c.if_out_broadcast_pkts);
    let j = wire_bytes::u32_bytes(c.if_out_discards);
    [
        a[0], a[1], a[2], a[3], b[0], b[1], b[2], b[3], d[0], d[1], d[2], d[3], e[0], e[1], e[2],
        e[3], f[0], f[1], f[2], f[3], g[0], g[1], g[2], g[3], h[0], h[1], h[2], h[3], i[0], i[1],
        i[2], i[3], j[0], j[1], j[2], j[3],
    ]
}

// 15, where a field does not fit its bits.
pub(crate) fn child_fits(c: ChildTableEntry) -> bool
    ensures { result ≡ child_fits c }
{
    c.timeout_exponent <= 31 && c.incoming_link_quality <= 3 && c.child_id <= 511
}
