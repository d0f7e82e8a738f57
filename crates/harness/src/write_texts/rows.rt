// The rows of a `write` line that are lent beside Network Data's tables: children and their address lists.
use crate::requests::Span;
use crate::texts::PATTERN;
use crate::write_texts::cells::{after, byte, cell, count_rows, first_of, short};
use crate::write_texts::fields::Fields;
use crate::write_texts::record::{length_of, mode_of};
use diag_rows::{ChildIpv6AddrInfo, ChildTableEntry};
use diag_values::ModeData;
use writing_bridge::Rows;

fn child_of(line: &[u8], row: Span) -> ChildTableEntry {
    let mode = mode_of(line, cell(line, row, b':', 3));
    ChildTableEntry {
        timeout_exponent: byte(line, cell(line, row, b':', 0)),
        incoming_link_quality: byte(line, cell(line, row, b':', 1)),
        child_id: short(line, cell(line, row, b':', 2)),
        mode,
    }
}

fn list_of(line: &[u8], row: Span) -> ChildIpv6AddrInfo {
    let addresses = cell(line, row, b':', 2);
    ChildIpv6AddrInfo {
        rloc16: short(line, cell(line, row, b':', 0)),
        child_id: short(line, cell(line, row, b':', 1)),
        start: addresses.start / 2,
        len: length_of(addresses),
    }
}

fn no_child() -> ChildTableEntry {
    let mode = ModeData {
        rx_on_when_idle: true,
        is_mtd: false,
        requires_full_network_data: true,
    };
    ChildTableEntry {
        timeout_exponent: PATTERN,
        incoming_link_quality: PATTERN,
        child_id: 0xA5A5,
        mode,
    }
}

fn no_list() -> ChildIpv6AddrInfo {
    ChildIpv6AddrInfo {
        rloc16: 0xA5A5,
        child_id: 0xA5A5,
        start: PATTERN as usize,
        len: PATTERN as usize,
    }
}

// How early a row is refused: one that does not fit its bits before any other.
fn child_weight(x: ChildTableEntry) -> u8 {
    if x.timeout_exponent > 31 {
        return 1;
    }
    if x.incoming_link_quality > 3 {
        return 1;
    }
    if x.child_id > 511 {
        return 1;
    }
    0
}

// How early a list is refused: one that no entry holds before one that contradicts itself, and that before any other.
fn list_weight(x: ChildIpv6AddrInfo) -> u8 {
    if x.len > 65533 {
        return 2;
    }
    if x.child_id != x.rloc16 % 512 {
        return 1;
    }
    if x.len % 16 != 0 {
        return 1;
    }
    0
}

// Rows as they are read. Where a line has more than there are places, none of them can be written, and the last place takes the one that is refused first.
fn table_of<T: Copy, const N: usize, F: Fn(&[u8], Span) -> T, W: Fn(T) -> u8>(
    line: &[u8],
    s: Span,
    none: T,
    read: F,
    weight: W,
) -> [T; N]
    requires reads { F.IsAlwaysCallable read }
    requires weighs { W.IsAlwaysCallable weight }
{
    let mut table = [none; N];
    let mut at = s.start;
    for k in 0..count_rows(line, s) {
        let row = first_of(line, at, s.end, b'/');
        let x = read(line, row);
        if k < N {
            table[k] = x;
        } else if let Some(last) = table.last_mut() {
            if weight(x) > weight(*last) {
                *last = x;
            }
        }
        at = after(row, s.end);
    }
    table
}

pub(crate) fn rows_of(line: &[u8], f: Fields) -> Rows {
    Rows {
        children: table_of(
            line,
            f.text(diag_rules::CHILD_TABLE),
            no_child(),
            child_of,
            child_weight,
        ),
        lists: table_of(
            line,
            f.text(diag_rules::CHILD_IPV6_ADDRESSES),
            no_list(),
            list_of,
            list_weight,
        ),
    }
}
