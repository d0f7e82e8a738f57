// A bare diagnostic value, as the field of its type.
use crate::answers::Put;
use crate::texts::{Room, put_byte, put_hex, put_name, put_ok, put_refusal};
use crate::value_texts::kinds::put_list;
use crate::value_texts::{Rows, put_route64_head, put_rows};
use diag_values::ModeData;
use refusal::Refusal;
use route64::Route64;

// `ok` and the name of the one field.
fn put_head(text: &mut Room, at: usize, ty: u8) -> usize {
    let word = put_ok(text, at);
    put_name(text, word, ty)
}

fn put_value<T: Put>(text: &mut Room, at: usize, ty: u8, value: Result<T, Refusal>) -> usize {
    match value {
        Ok(x) => {
            let head = put_head(text, at, ty);
            x.put(text, head)
        }
        Err(r) => put_refusal(text, at, r),
    }
}

fn put_bare_list(text: &mut Room, at: usize, ty: u8, value: &[u8]) -> usize {
    match diag_rows::decode_child_ipv6_addresses(value, 0) {
        Ok(list) => {
            let head = put_head(text, at, ty);
            put_list(text, head, value, list)
        }
        Err(r) => put_refusal(text, at, r),
    }
}

// Row k of a Route64 as its record has it, after a `/` unless it is the first; nothing where it is none.
fn put_nth_route(text: &mut Room, at: usize, route: Route64, k: usize) -> usize {
    if k >= route.count {
        return at;
    }
    if k >= 64 {
        return at;
    }
    let row = route.route_data[k];
    if k == 0 {
        return row.put(text, at);
    }
    let slash = put_byte(text, at, b'/');
    row.put(text, slash)
}

// The mask, and the rows, or `-` for none.
impl Put for Route64 {
    fn put(self, text: &mut Room, at: usize) -> usize {
        let mut next = put_route64_head(text, at, self);
        if self.count == 0 {
            return put_byte(text, next, b'-');
        }
        for k in 0..64 {
            next = put_nth_route(text, next, self, k);
        }
        next
    }
}

// The addresses one after the other, or `-` for none.
fn put_each_address(text: &mut Room, at: usize, value: &[u8]) -> usize {
    let n = value.len() / 16;
    if n == 0 {
        return put_byte(text, at, b'-');
    }
    let mut next = at;
    for k in 0..n {
        next = put_hex(text, next, diag_rows::address(value, k));
    }
    next
}

// A value whose bytes are its fields: addresses, children, or the bytes themselves.
fn put_plain(text: &mut Room, at: usize, ty: u8, value: &[u8]) -> usize {
    match ty {
        8 => put_each_address(text, at, value),
        16 => put_rows(text, at, Rows::Children, value, value.len() / 3),
        _ => put_hex(text, at, value),
    }
}

fn put_checked(text: &mut Room, at: usize, ty: u8, value: &[u8]) -> usize {
    match diag_rules::check_value(ty, value, 0) {
        Ok(()) => {
            let head = put_head(text, at, ty);
            put_plain(text, head, ty, value)
        }
        Err(r) => put_refusal(text, at, r),
    }
}

// `ok` and the field, or the refusal; nothing where no field has that type.
pub(crate) fn put_bare(text: &mut Room, at: usize, ty: u8, value: &[u8]) -> usize {
    match ty {
        0 | 8 | 16 | 17 | 18 | 23 => put_checked(text, at, ty, value),
        1 | 15 => put_value(text, at, ty, wire::read_u16(value, 0)),
        2 => put_value(text, at, ty, ModeData::decode(value, 0)),
        3 => put_value(text, at, ty, wire::read_u32(value, 0)),
        4 => put_value(text, at, ty, connectivity::decode_connectivity(value, 0)),
        5 => put_value(text, at, ty, route64::decode_route64(value, 0)),
        6 => put_value(text, at, ty, diag_values::decode_leader_data(value, 0)),
        9 => put_value(text, at, ty, diag_values::decode_mac_counters(value, 0)),
        14 => put_value(text, at, ty, diag_values::read_u8(value, 0)),
        30 => put_bare_list(text, at, ty, value),
        _ => at,
    }
}
