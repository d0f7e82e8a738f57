// The text of each kind of row.
use crate::answers::{Put, put_given, put_there};
use crate::texts::{Room, part, put_byte, put_hex, put_marked, put_number, put_numbers};
use crate::value_texts::Rows;
use diag_rows::{ChildIpv6AddrInfo, ChildTableEntry};
use diag_values::ModeData;
use refusal::Refusal;
use route64::RouteDataEntry;

impl Put for RouteDataEntry {
    fn put(self, text: &mut Room, at: usize) -> usize {
        let numbers = [
            self.outgoing_link_quality as usize,
            self.incoming_link_quality as usize,
            self.route_cost as usize,
        ];
        let router = put_number(text, at, self.router_id as u64);
        put_numbers(text, router, b':', &numbers)
    }
}

impl Put for ChildTableEntry {
    fn put(self, text: &mut Room, at: usize) -> usize {
        let numbers = [self.incoming_link_quality as usize, self.child_id as usize];
        let exponent = put_number(text, at, self.timeout_exponent as u64);
        let id = put_numbers(text, exponent, b':', &numbers);
        let colon = put_byte(text, id, b':');
        self.mode.put(text, colon)
    }
}

// A list whose addresses are a part of s.
pub(crate) fn put_list(text: &mut Room, at: usize, s: &[u8], list: ChildIpv6AddrInfo) -> usize {
    let rloc16 = put_number(text, at, list.rloc16 as u64);
    let id = put_marked(text, rloc16, b':', list.child_id as usize);
    let colon = put_byte(text, id, b':');
    put_hex(text, colon, part(s, list.start, list.len))
}

// A list that is not there has no text.
fn put_read_list(
    text: &mut Room,
    at: usize,
    s: &[u8],
    r: Result<Option<ChildIpv6AddrInfo>, Refusal>,
) -> usize {
    match r {
        Ok(Some(list)) => put_list(text, at, s, list),
        _ => at,
    }
}

pub(crate) fn put_row(text: &mut Room, at: usize, rows: Rows, s: &[u8], k: usize) -> usize {
    match rows {
        Rows::Routes => put_there(text, at, route64::route64_row(s, k)),
        Rows::Children => put_there(text, at, diag_rows::child_row(s, k)),
        Rows::Lists => put_read_list(text, at, s, child_lists::child_list(s, k)),
        Rows::Network(table) => crate::network_texts::put_row(text, at, table, s, k),
    }
}

pub(crate) fn put_seconds(text: &mut Room, at: usize, exponent: u8) -> usize {
    let mode = ModeData {
        rx_on_when_idle: false,
        is_mtd: false,
        requires_full_network_data: false,
    };
    let child = ChildTableEntry {
        timeout_exponent: exponent,
        incoming_link_quality: 0,
        child_id: 0,
        mode,
    };
    put_given(text, at, child.timeout_seconds())
}
