// The record of a `write` line: its fields as the words spell them, and how many rows its tables have.
use crate::requests::{Span, number_of};
use crate::write_texts::cells::{bit, byte, cell, count_rows, is_none, long, short, word_of};
use crate::write_texts::fields::Fields;
use connectivity::Connectivity;
use diag::{NetDiagData, NetworkDataPart};
use diag_rows::Part;
use diag_values::{LeaderData, MacCounters, ModeData};
use network_data::Counts;
use writing_bridge::{CHILD_PLACES, LIST_PLACES};

// A value of 65,535 bytes has so many rows of three.
const MOST_ROWS: usize = 21845;

// A field as it is read, or none where it is not there, which is a part that ends at 0.
fn field<T, F: FnOnce(&[u8], Span) -> T + Drop>(line: &[u8], s: Span, read: F) -> Option<T>
    requires { F.IsAlwaysCallable read }
{
    if s.end == 0 {
        return None;
    }
    Some(read(line, s))
}

// A late field, which is `-` where it is absent.
fn late<T, F: FnOnce(&[u8], Span) -> T + Drop>(line: &[u8], s: Span, read: F) -> Option<T>
    requires { F.IsAlwaysCallable read }
{
    if is_none(word_of(line, s)) {
        return None;
    }
    Some(read(line, s))
}

// Where the bytes of a cell are in the arena.
fn part_at(_line: &[u8], s: Span) -> Part {
    Part {
        start: s.start / 2,
        len: length_of(s),
    }
}

// How many bytes a cell spells: none where it is `-`.
pub(crate) fn length_of(s: Span) -> usize {
    if s.start < s.end {
        return (s.end - s.start) / 2;
    }
    0
}

pub(crate) fn mode_of(line: &[u8], s: Span) -> ModeData {
    ModeData {
        rx_on_when_idle: bit(line, s, 0),
        is_mtd: bit(line, s, 1),
        requires_full_network_data: bit(line, s, 2),
    }
}

// Less than nothing by so many, to 128.
fn negative(n: u64) -> i8 {
    if n == 0 {
        return 0;
    }
    !(((n - 1) % 128) as i8)
}

fn priority_of(word: &[u8]) -> i8 {
    match word {
        [b'-', digits @ ..] => negative(number_of(digits).unwrap_or(0)),
        _ => (number_of(word).unwrap_or(0) % 128) as i8,
    }
}

fn connectivity_of(line: &[u8], s: Span) -> Connectivity {
    Connectivity {
        parent_priority: priority_of(word_of(line, cell(line, s, b',', 0))),
        link_quality_3: byte(line, cell(line, s, b',', 1)),
        link_quality_2: byte(line, cell(line, s, b',', 2)),
        link_quality_1: byte(line, cell(line, s, b',', 3)),
        leader_cost: byte(line, cell(line, s, b',', 4)),
        id_sequence: byte(line, cell(line, s, b',', 5)),
        active_routers: byte(line, cell(line, s, b',', 6)),
        rx_off_child_buffer_size: late(line, cell(line, s, b',', 7), short),
        rx_off_child_datagram_count: late(line, cell(line, s, b',', 8), byte),
    }
}

fn leader_data_of(line: &[u8], s: Span) -> LeaderData {
    LeaderData {
        partition_id: long(line, cell(line, s, b',', 0)),
        weighting: byte(line, cell(line, s, b',', 1)),
        data_version: byte(line, cell(line, s, b',', 2)),
        stable_data_version: byte(line, cell(line, s, b',', 3)),
        router_id: byte(line, cell(line, s, b',', 4)),
    }
}

fn mac_counters_of(line: &[u8], s: Span) -> MacCounters {
    MacCounters {
        if_in_unknown_protos: long(line, cell(line, s, b',', 0)),
        if_in_errors: long(line, cell(line, s, b',', 1)),
        if_out_errors: long(line, cell(line, s, b',', 2)),
        if_in_ucast_pkts: long(line, cell(line, s, b',', 3)),
        if_in_broadcast_pkts: long(line, cell(line, s, b',', 4)),
        if_in_discards: long(line, cell(line, s, b',', 5)),
        if_out_ucast_pkts: long(line, cell(line, s, b',', 6)),
        if_out_broadcast_pkts: long(line, cell(line, s, b',', 7)),
        if_out_discards: long(line, cell(line, s, b',', 8)),
    }
}

// Where Network Data would stand is not looked at.
fn network_data_of(line: &[u8], s: Span) -> NetworkDataPart {
    NetworkDataPart {
        start: 0,
        len: 0,
        counts: Counts {
            prefixes: count_rows(line, cell(line, s, b'|', 0)),
            has_routes: count_rows(line, cell(line, s, b'|', 1)),
            border_routers: count_rows(line, cell(line, s, b'|', 2)),
        },
    }
}

// Three bytes a row, of as many rows as can be lent, or of all where no value has so many.
fn table_length(rows: usize) -> usize {
    if rows > MOST_ROWS {
        return 65536;
    }
    3 * rows.min(CHILD_PLACES)
}

fn child_table_of(line: &[u8], s: Span) -> Part {
    Part {
        start: 0,
        len: table_length(count_rows(line, s)),
    }
}

// As many lists as there are, or as can be lent.
fn count_lists(line: &[u8], s: Span) -> usize {
    count_rows(line, s).min(LIST_PLACES)
}

pub(crate) fn record_of(line: &[u8], f: Fields) -> NetDiagData {
    NetDiagData {
        ext_mac_addr: field(line, f.text(diag_rules::EXT_MAC_ADDRESS), part_at),
        mac_addr: field(line, f.text(diag_rules::MAC_ADDRESS), short),
        mode: field(line, f.text(diag_rules::MODE), mode_of),
        timeout: field(line, f.text(diag_rules::TIMEOUT), long),
        connectivity: field(line, f.text(diag_rules::CONNECTIVITY), connectivity_of),
        route64: field(line, f.text(diag_rules::ROUTE64), part_at),
        leader_data: field(line, f.text(diag_rules::LEADER_DATA), leader_data_of),
        network_data: field(line, f.text(diag_rules::NETWORK_DATA), network_data_of),
        addresses: field(line, f.text(diag_rules::IPV6_ADDRESSES), part_at),
        mac_counters: field(line, f.text(diag_rules::MAC_COUNTERS), mac_counters_of),
        battery_level: field(line, f.text(diag_rules::BATTERY_LEVEL), byte),
        supply_voltage: field(line, f.text(diag_rules::SUPPLY_VOLTAGE), short),
        child_table: field(line, f.text(diag_rules::CHILD_TABLE), child_table_of),
        channel_pages: field(line, f.text(diag_rules::CHANNEL_PAGES), part_at),
        type_list: field(line, f.text(diag_rules::TYPE_LIST), part_at),
        eui64: field(line, f.text(diag_rules::EUI64), part_at),
        child_ipv6_addresses: count_lists(line, f.text(diag_rules::CHILD_IPV6_ADDRESSES)),
    }
}
