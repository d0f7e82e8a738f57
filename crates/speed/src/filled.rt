// The record that `speed_write` writes, made of a number: n of all that can be many, prefixes to their most, and no field at all where n is 0; and its tables, whose rows are alike.
// The numbers in it are made of n, so that no compiler knows them.
ghost use Rattle.std.specs.Prelude.{◌≡◌, ◌≤◌};
ghost use Rattle.speed.specs.Filled.{spread, one_mode, links_of, leader_of, counters_of, prefixes_for, network_of, full_of, no_field, record_of, one_prefix, one_route, one_border, tables_of, one_child, one_list, rows_of, all_lent};

use connectivity::Connectivity;
use diag::{NetDiagData, NetworkDataPart};
use diag_rows::{ChildIpv6AddrInfo, ChildTableEntry, Part};
use diag_values::{LeaderData, MacCounters, ModeData};
use network_bridge::{PLACES, Tables};
use network_data::{BorderRouterEntry, Counts, HasRouteEntry, PrefixEntry, SixLowPanContext};
use writing_bridge::{CHILD_PLACES, LIST_PLACES, Lengths, Rows};

fn spread_of(n: u8) -> u32
    ensures { (result ≡ spread n) × (result ≤ 4278292845) }
{
    u32::from(n) * 16777619
}

fn one_mode() -> ModeData
    ensures { result ≡ one_mode }
{
    ModeData {
        rx_on_when_idle: true,
        is_mtd: false,
        requires_full_network_data: true,
    }
}

fn links_of(n: u8) -> Connectivity
    ensures { result ≡ links_of n }
{
    Connectivity {
        parent_priority: 1,
        link_quality_3: n,
        link_quality_2: n,
        link_quality_1: n,
        leader_cost: n,
        id_sequence: n,
        active_routers: n,
        rx_off_child_buffer_size: Some(u16::from(n)),
        rx_off_child_datagram_count: Some(n),
    }
}

fn leader_of(n: u8) -> LeaderData
    ensures { result ≡ leader_of n }
{
    LeaderData {
        partition_id: spread_of(n),
        weighting: n,
        data_version: n,
        stable_data_version: n,
        router_id: n,
    }
}

fn counters_of(n: u8) -> MacCounters
    ensures { result ≡ counters_of n }
{
    let x = spread_of(n);
    MacCounters {
        if_in_unknown_protos: x,
        if_in_errors: x + 1,
        if_out_errors: x + 2,
        if_in_ucast_pkts: x + 3,
        if_in_broadcast_pkts: x + 4,
        if_in_discards: x + 5,
        if_out_ucast_pkts: x + 6,
        if_out_broadcast_pkts: x + 7,
        if_out_discards: x + 8,
    }
}

fn prefixes_for(n: usize) -> usize
    ensures { result ≡ prefixes_for n }
{
    n.min(network_data::MAX_PREFIXES)
}

// A row of each kind for each prefix. Where it stands does not matter to a writer.
fn network_of(n: usize) -> NetworkDataPart
    ensures { result ≡ network_of n }
{
    let prefixes = prefixes_for(n);
    NetworkDataPart {
        start: 0,
        len: 0,
        counts: Counts {
            prefixes,
            has_routes: prefixes,
            border_routers: prefixes,
        },
    }
}

// Every field; of the child table 9 n rows.
fn full_of(n: u8) -> NetDiagData
    ensures { result ≡ full_of n }
{
    let many = usize::from(n);
    NetDiagData {
        ext_mac_addr: Some(Part { start: 0, len: 8 }),
        mac_addr: Some(u16::from(n)),
        mode: Some(one_mode()),
        timeout: Some(spread_of(n)),
        connectivity: Some(links_of(n)),
        route64: Some(Part { start: 0, len: 0 }),
        leader_data: Some(leader_of(n)),
        network_data: Some(network_of(many)),
        addresses: Some(Part {
            start: 0,
            len: many * 16,
        }),
        mac_counters: Some(counters_of(n)),
        battery_level: Some(n),
        supply_voltage: Some(u16::from(n)),
        child_table: Some(Part {
            start: 0,
            len: many * 27,
        }),
        channel_pages: Some(Part { start: 0, len: 4 }),
        type_list: Some(Part { start: 0, len: 17 }),
        eui64: Some(Part { start: 0, len: 8 }),
        child_ipv6_addresses: many,
    }
}

fn no_field() -> NetDiagData
    ensures { result ≡ no_field }
{
    NetDiagData {
        ext_mac_addr: None,
        mac_addr: None,
        mode: None,
        timeout: None,
        connectivity: None,
        route64: None,
        leader_data: None,
        network_data: None,
        addresses: None,
        mac_counters: None,
        battery_level: None,
        supply_voltage: None,
        child_table: None,
        channel_pages: None,
        type_list: None,
        eui64: None,
        child_ipv6_addresses: 0,
    }
}

#[tactic(auto, unfolding(crate::specs::Filled::record_of))]
pub(crate) fn record_of(n: u8) -> NetDiagData
    ensures { result ≡ record_of n }
{
    if n == 0 { no_field() } else { full_of(n) }
}

// ---- the tables

fn one_prefix() -> PrefixEntry
    ensures { result ≡ one_prefix }
{
    PrefixEntry {
        domain_id: 3,
        prefix_bit_length: 64,
        prefix: [0x20u8; 32],
        six_low_pan_context: Some(SixLowPanContext {
            is_compress: true,
            context_id: 1,
            context_length: 64,
        }),
        has_routes: 1,
        border_routers: 1,
    }
}

fn one_route() -> HasRouteEntry
    ensures { result ≡ one_route }
{
    HasRouteEntry {
        rloc16: 0x1234,
        router_preference: 1,
        is_nat64: true,
    }
}

fn one_border() -> BorderRouterEntry
    ensures { result ≡ one_border }
{
    BorderRouterEntry {
        rloc16: 0x3456,
        prefix_preference: 1,
        is_preferred: true,
        is_slaac: false,
        is_dhcp: true,
        is_configure: false,
        is_default_route: true,
        is_on_mesh: true,
        is_nd_dns: false,
        is_dp: true,
    }
}

#[tactic(auto, unfolding(crate::specs::Filled::tables_of))]
pub(crate) fn tables_of() -> Tables
    ensures { result ≡ tables_of }
{
    Tables {
        prefixes: [one_prefix(); PLACES],
        has_route: [one_route(); PLACES],
        border_routers: [one_border(); PLACES],
    }
}

fn one_child() -> ChildTableEntry
    ensures { result ≡ one_child }
{
    ChildTableEntry {
        timeout_exponent: 12,
        incoming_link_quality: 3,
        child_id: 300,
        mode: one_mode(),
    }
}

// Three addresses.
fn one_list() -> ChildIpv6AddrInfo
    ensures { result ≡ one_list }
{
    ChildIpv6AddrInfo {
        rloc16: 0x2401,
        child_id: 1,
        start: 0,
        len: 48,
    }
}

pub(crate) fn rows_of() -> Rows
    ensures { result ≡ rows_of }
{
    let child = one_child();
    let list = one_list();
    Rows {
        children: [child; CHILD_PLACES],
        lists: [list; LIST_PLACES],
    }
}

pub(crate) fn all_lent() -> Lengths
    ensures { result ≡ all_lent }
{
    Lengths {
        prefixes: PLACES,
        has_route: PLACES,
        border_routers: PLACES,
        children: CHILD_PLACES,
        lists: LIST_PLACES,
    }
}
