// The texts of diagnostic values: `d.TYPE`, `timeout`, and what a whole payload has of them.
mod bare;
mod kinds;
mod requested;

use crate::answers::Put;
use crate::network_texts::Table;
use crate::requests::{Values, asks};
use crate::texts::{Room, digit, put_byte, put_hex, put_number, put_numbers, put_text};
use bare::put_bare;
use connectivity::Connectivity;
use diag_values::{LeaderData, MacCounters, ModeData};
use kinds::{put_row, put_seconds};
use requested::{NO_TYPE, named_type};
use route64::Route64;

// What the rows are of: a bare value, for Lists a payload.
#[derive(Clone, Copy)]
pub(crate) enum Rows {
    Routes,
    Children,
    Lists,
    Network(Table),
}

// Three digits: receiver on, minimal device, full Network Data.
impl Put for ModeData {
    fn put(self, text: &mut Room, at: usize) -> usize {
        let digits = [
            digit(self.rx_on_when_idle),
            digit(self.is_mtd),
            digit(self.requires_full_network_data),
        ];
        put_text(text, at, &digits)
    }
}

// A priority is -2 to 1.
fn put_priority(text: &mut Room, at: usize, priority: i8) -> usize {
    match priority {
        -2 => put_text(text, at, b"-2"),
        -1 => put_text(text, at, b"-1"),
        0 => put_byte(text, at, b'0'),
        1 => put_byte(text, at, b'1'),
        _ => put_byte(text, at, b'?'),
    }
}

// A late field, or `-` where it is absent.
fn put_late<T: Put>(text: &mut Room, at: usize, late: Option<T>) -> usize {
    match late {
        Some(x) => {
            let mark = put_byte(text, at, b',');
            x.put(text, mark)
        }
        None => put_text(text, at, b",-"),
    }
}

impl Put for Connectivity {
    fn put(self, text: &mut Room, at: usize) -> usize {
        let numbers = [
            self.link_quality_3 as usize,
            self.link_quality_2 as usize,
            self.link_quality_1 as usize,
            self.leader_cost as usize,
            self.id_sequence as usize,
            self.active_routers as usize,
        ];
        let priority = put_priority(text, at, self.parent_priority);
        let early = put_numbers(text, priority, b',', &numbers);
        let buffer = put_late(text, early, self.rx_off_child_buffer_size);
        put_late(text, buffer, self.rx_off_child_datagram_count)
    }
}

impl Put for LeaderData {
    fn put(self, text: &mut Room, at: usize) -> usize {
        let numbers = [
            self.weighting as usize,
            self.data_version as usize,
            self.stable_data_version as usize,
            self.router_id as usize,
        ];
        let partition = put_number(text, at, self.partition_id as u64);
        put_numbers(text, partition, b',', &numbers)
    }
}

impl Put for MacCounters {
    fn put(self, text: &mut Room, at: usize) -> usize {
        let numbers = [
            self.if_in_errors as usize,
            self.if_out_errors as usize,
            self.if_in_ucast_pkts as usize,
            self.if_in_broadcast_pkts as usize,
            self.if_in_discards as usize,
            self.if_out_ucast_pkts as usize,
            self.if_out_broadcast_pkts as usize,
            self.if_out_discards as usize,
        ];
        let first = put_number(text, at, self.if_in_unknown_protos as u64);
        put_numbers(text, first, b',', &numbers)
    }
}

// The sequence and the mask; the rows come after it.
pub(crate) fn put_route64_head(text: &mut Room, at: usize, route: Route64) -> usize {
    let mask = route.mask;
    let sequence = put_number(text, at, route.id_sequence as u64);
    let first = put_byte(text, sequence, b',');
    let bytes = put_hex(text, first, &mask);
    put_byte(text, bytes, b',')
}

// The first n rows, or `-` for none.
pub(crate) fn put_rows(text: &mut Room, at: usize, rows: Rows, s: &[u8], n: usize) -> usize {
    if n == 0 {
        return put_byte(text, at, b'-');
    }
    let mut next = put_row(text, at, rows, s, 0);
    for k in 1..n {
        let slash = put_byte(text, next, b'/');
        next = put_row(text, slash, rows, s, k);
    }
    next
}

// Puts the answer to a request, or nothing where it is for none of these calls.
pub(crate) fn answer(request: &Room, v: Values, text: &mut Room, at: usize) -> usize {
    if asks(request, b"timeout t") {
        return put_seconds(text, at, v.type_byte(1));
    }
    let ty = named_type(request);
    if ty == NO_TYPE {
        return at;
    }
    put_bare(text, at, ty, v.bytes(request, 1))
}
