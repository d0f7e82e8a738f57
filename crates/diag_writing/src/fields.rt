// The fields of a record, each as an entry where it is present, into an output that has room for them.
ghost use Rattle.std.specs.Prelude.{◌≡◌, ◌+◌, ◌≤◌, length};
ghost use Rattle.refusal.specs.Sizes.{most_value};
ghost use Rattle.refusal.specs.Answer.{on_given};
ghost use Rattle.refusal.specs.Output.{put};
ghost use Rattle.refusal.specs.Results.{option_of};
ghost use Rattle.wire_bytes.specs.Bytes.{bytes_of};
ghost use Rattle.tlv_writing.specs.Encode.{encode};
ghost use Rattle.diag.specs.Answers.{opt_connectivity};
ghost use Rattle.value_writing.specs.Encode.{mode_bytes, connectivity_bytes, leader_bytes, counters_bytes};
ghost use Rattle.record_writing.specs.Values.{one_byte};
ghost use Rattle.record_writing.specs.Lent.{part_bytes};
ghost use Rattle.diag_writing.specs.Pieces.{field_bytes, fields_bytes, Lies, Counted, Short, Placeable, first_fields, route_bytes_of, link_fields, middle_fields, network_header, child_header, before_bytes, between_bytes, after_bytes};

use crate::linked::connectivity_bytes;
use crate::routers::route64_bytes;
use crate::values::{counters_bytes, leader_bytes, mode_byte};
use connectivity::Connectivity;
use diag::{NetDiagData, NetworkDataPart};
use diag_rows::Part;
use diag_values::{LeaderData, MacCounters, ModeData};
use route64::Route64;
use writing_walks::Cursor;

// One entry.
fn put_value(ty: u8, value: &[u8], out: &mut [u8], at: usize) -> usize
    requires { (length value.now ≤ most_value) × (at + length (encode ty value.now) ≤ length out.old) }
    ensures { (result ≡ at + length (encode ty value.now)) × (out.new ≡ put out.old at (encode ty value.now)) }
{
    tlv_writing::put_entry(ty, value, out, at)
}

fn put_part(ty: u8, x: Option<Part>, bytes: &[u8], out: &mut [u8], at: usize) -> usize
    requires { Lies bytes.now (option_of x) × (at + length (field_bytes ty (on_given (part_bytes bytes.now) (option_of x))) ≤ length out.old) }
    ensures { (result ≡ at + length (field_bytes ty (on_given (part_bytes bytes.now) (option_of x)))) × (out.new ≡ put out.old at (field_bytes ty (on_given (part_bytes bytes.now) (option_of x)))) }
{
    match x {
        Some(p) => put_value(ty, &bytes[p.start..p.start + p.len], out, at),
        None => at,
    }
}

fn put_u8(ty: u8, x: Option<u8>, out: &mut [u8], at: usize) -> usize
    requires { at + length (field_bytes ty (on_given one_byte (option_of x))) ≤ length out.old }
    ensures { (result ≡ at + length (field_bytes ty (on_given one_byte (option_of x)))) × (out.new ≡ put out.old at (field_bytes ty (on_given one_byte (option_of x)))) }
{
    match x {
        Some(n) => {
            let a = [n];
            put_value(ty, &a, out, at)
        }
        None => at,
    }
}

fn put_u16(ty: u8, x: Option<u16>, out: &mut [u8], at: usize) -> usize
    requires { at + length (field_bytes ty (on_given (bytes_of 2) (option_of x))) ≤ length out.old }
    ensures { (result ≡ at + length (field_bytes ty (on_given (bytes_of 2) (option_of x)))) × (out.new ≡ put out.old at (field_bytes ty (on_given (bytes_of 2) (option_of x)))) }
{
    match x {
        Some(n) => {
            let a = wire_bytes::u16_bytes(n);
            put_value(ty, &a, out, at)
        }
        None => at,
    }
}

fn put_u32(ty: u8, x: Option<u32>, out: &mut [u8], at: usize) -> usize
    requires { at + length (field_bytes ty (on_given (bytes_of 4) (option_of x))) ≤ length out.old }
    ensures { (result ≡ at + length (field_bytes ty (on_given (bytes_of 4) (option_of x)))) × (out.new ≡ put out.old at (field_bytes ty (on_given (bytes_of 4) (option_of x)))) }
{
    match x {
        Some(n) => {
            let a = wire_bytes::u32_bytes(n);
            put_value(ty, &a, out, at)
        }
        None => at,
    }
}

fn put_mode(x: Option<ModeData>, out: &mut [u8], at: usize) -> usize
    requires { at + length (field_bytes 2 (on_given mode_bytes (option_of x))) ≤ length out.old }
    ensures { (result ≡ at + length (field_bytes 2 (on_given mode_bytes (option_of x)))) × (out.new ≡ put out.old at (field_bytes 2 (on_given mode_bytes (option_of x)))) }
{
    match x {
        Some(m) => {
            let a = [mode_byte(m)];
            put_value(diag_rules::MODE, &a, out, at)
        }
        None => at,
    }
}

fn put_connectivity(x: Option<Connectivity>, out: &mut [u8], at: usize) -> usize
    requires { at + length (field_bytes 4 (on_given connectivity_bytes (opt_connectivity x))) ≤ length out.old }
    ensures { (result ≡ at + length (field_bytes 4 (on_given connectivity_bytes (opt_connectivity x)))) × (out.new ≡ put out.old at (field_bytes 4 (on_given connectivity_bytes (opt_connectivity x)))) }
{
    match x {
        Some(c) => {
            let b = connectivity_bytes(c);
            let n = b.len;
            let a = b.bytes;
            put_value(diag_rules::CONNECTIVITY, &a[0..n], out, at)
        }
        None => at,
    }
}

fn put_route64(x: Option<Part>, t: Route64, out: &mut [u8], at: usize) -> usize
    requires { Counted (option_of x) t × (at + length (field_bytes 5 (route_bytes_of x t)) ≤ length out.old) }
    ensures { (result ≡ at + length (field_bytes 5 (route_bytes_of x t))) × (out.new ≡ put out.old at (field_bytes 5 (route_bytes_of x t))) }
{
    match x {
        Some(_) => {
            let a = route64_bytes(t);
            let n = 9 + t.count;
            put_value(diag_rules::ROUTE64, &a[0..n], out, at)
        }
        None => at,
    }
}

fn put_leader_data(x: Option<LeaderData>, out: &mut [u8], at: usize) -> usize
    requires { at + length (field_bytes 6 (on_given leader_bytes (option_of x))) ≤ length out.old }
    ensures { (result ≡ at + length (field_bytes 6 (on_given leader_bytes (option_of x)))) × (out.new ≡ put out.old at (field_bytes 6 (on_given leader_bytes (option_of x)))) }
{
    match x {
        Some(l) => {
            let a = leader_bytes(l);
            put_value(diag_rules::LEADER_DATA, &a, out, at)
        }
        None => at,
    }
}

fn put_mac_counters(x: Option<MacCounters>, out: &mut [u8], at: usize) -> usize
    requires { at + length (field_bytes 9 (on_given counters_bytes (option_of x))) ≤ length out.old }
    ensures { (result ≡ at + length (field_bytes 9 (on_given counters_bytes (option_of x)))) × (out.new ≡ put out.old at (field_bytes 9 (on_given counters_bytes (option_of x)))) }
{
    match x {
        Some(c) => {
            let a = counters_bytes(c);
            put_value(diag_rules::MAC_COUNTERS, &a, out, at)
        }
        None => at,
    }
}

// The header of Network Data of so many bytes, where it is present.
fn put_network_header(x: Option<NetworkDataPart>, size: usize, out: &mut [u8], at: usize) -> usize
    requires { (size ≤ most_value) × (at + length (network_header x size) ≤ length out.old) }
    ensures { (result ≡ at + length (network_header x size)) × (out.new ≡ put out.old at (network_header x size)) }
{
    match x {
        Some(_) => tlv_writing::put_header(diag_rules::NETWORK_DATA, size, out, at),
        None => at,
    }
}

fn put_child_header(x: Option<Part>, out: &mut [u8], at: usize) -> usize
    requires { Short (option_of x) × (at + length (child_header (option_of x)) ≤ length out.old) }
    ensures { (result ≡ at + length (child_header (option_of x))) × (out.new ≡ put out.old at (child_header (option_of x))) }
{
    match x {
        Some(p) => tlv_writing::put_header(diag_rules::CHILD_TABLE, p.len, out, at),
        None => at,
    }
}

// Types 0 to 3.
fn put_first(r: NetDiagData, bytes: &[u8], out: &mut [u8]) -> usize
    requires { Lies bytes.now (option_of r.ext_mac_addr) × (length (fields_bytes (first_fields r bytes.now)) ≤ length out.old) }
    ensures { (result ≡ length (fields_bytes (first_fields r bytes.now))) × (out.new ≡ put out.old 0 (fields_bytes (first_fields r bytes.now))) }
{
    let part = r.ext_mac_addr;
    let mac = r.mac_addr;
    let mode = r.mode;
    let timeout = r.timeout;
    let a = put_part(diag_rules::EXT_MAC_ADDRESS, part, bytes, out, 0);
    let b = put_u16(diag_rules::MAC_ADDRESS, mac, out, a);
    let c = put_mode(mode, out, b);
    put_u32(diag_rules::TIMEOUT, timeout, out, c)
}

// Types 4 to 6.
fn put_links(r: NetDiagData, t: Route64, out: &mut [u8], at: usize) -> usize
    requires { Counted (option_of r.route64) t × (at + length (fields_bytes (link_fields r t)) ≤ length out.old) }
    ensures { (result ≡ at + length (fields_bytes (link_fields r t))) × (out.new ≡ put out.old at (fields_bytes (link_fields r t))) }
{
    let connectivity = r.connectivity;
    let route64 = r.route64;
    let leader = r.leader_data;
    let a = put_connectivity(connectivity, out, at);
    let b = put_route64(route64, t, out, a);
    put_leader_data(leader, out, b)
}

// All before the prefixes, of which Network Data has so many bytes.
pub(crate) fn put_before(
    r: NetDiagData,
    bytes: &[u8],
    t: Route64,
    size: usize,
    out: &mut [u8],
) -> Cursor
    requires { Placeable r bytes.now × Counted (option_of r.route64) t × (size ≤ most_value) × (length (before_bytes r bytes.now t size) ≤ length out.old) }
    ensures { (result ≡ record { at = length (before_bytes r bytes.now t size); route = 0; border = 0 }) × (out.new ≡ put out.old 0 (before_bytes r bytes.now t size)) }
{
    let a = put_first(r, bytes, out);
    let b = put_links(r, t, out, a);
    let network = r.network_data;
    Cursor {
        at: put_network_header(network, size, out, b),
        route: 0,
        border: 0,
    }
}

// Types 8 to 15.
fn put_middle(r: NetDiagData, bytes: &[u8], out: &mut [u8], at: usize) -> usize
    requires { Lies bytes.now (option_of r.addresses) × (at + length (fields_bytes (middle_fields r bytes.now)) ≤ length out.old) }
    ensures { (result ≡ at + length (fields_bytes (middle_fields r bytes.now))) × (out.new ≡ put out.old at (fields_bytes (middle_fields r bytes.now))) }
{
    let addresses = r.addresses;
    let counters = r.mac_counters;
    let battery = r.battery_level;
    let voltage = r.supply_voltage;
    let a = put_part(diag_rules::IPV6_ADDRESSES, addresses, bytes, out, at);
    let b = put_mac_counters(counters, out, a);
    let c = put_u8(diag_rules::BATTERY_LEVEL, battery, out, b);
    put_u16(diag_rules::SUPPLY_VOLTAGE, voltage, out, c)
}

// All between the prefixes and the child rows.
pub(crate) fn put_between(r: NetDiagData, bytes: &[u8], out: &mut [u8], c: Cursor) -> usize
    requires { Placeable r bytes.now × (c.at + length (between_bytes r bytes.now) ≤ length out.old) }
    ensures { (result ≡ c.at + length (between_bytes r bytes.now)) × (out.new ≡ put out.old c.at (between_bytes r bytes.now)) }
{
    let a = put_middle(r, bytes, out, c.at);
    let children = r.child_table;
    put_child_header(children, out, a)
}

// All between the child rows and the address lists.
pub(crate) fn put_after(r: NetDiagData, bytes: &[u8], out: &mut [u8], at: usize) -> usize
    requires { Placeable r bytes.now × (at + length (after_bytes r bytes.now) ≤ length out.old) }
    ensures { (result ≡ at + length (after_bytes r bytes.now)) × (out.new ≡ put out.old at (after_bytes r bytes.now)) }
{
    let pages = r.channel_pages;
    let types = r.type_list;
    let eui64 = r.eui64;
    let a = put_part(diag_rules::CHANNEL_PAGES, pages, bytes, out, at);
    let b = put_part(diag_rules::TYPE_LIST, types, bytes, out, a);
    put_part(diag_rules::EUI64, eui64, bytes, out, b)
}
