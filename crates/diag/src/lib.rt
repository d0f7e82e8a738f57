// What a diagnostic payload says (decode.rs, model.rs): the record of its values, those that stay in the payload as parts of it.
#![tactic(auto)]

ghost use Rattle.std.specs.Prelude.{◌≡◌, ◌<◌};
ghost use Rattle.refusal.specs.Answer.{on_given};
ghost use Rattle.refusal.specs.Results.{found_of, option_of};
ghost use Rattle.diag.specs.Diag.{decode};
ghost use Rattle.diag.specs.Answers.{opt_network_data, diag_of, decoded_answer};
ghost use Rattle.diag.specs.Loops.{spot_of, Located, InPayload, ReadBy, network_at, part_of, collected};

use connectivity::Connectivity;
use diag_rows::Part;
use diag_values::{LeaderData, MacCounters, ModeData};
use network_data::Counts;
use refusal::Refusal;
use tlv_last::Spot;

// Where Network Data stands in the payload, and how many records it has.
#[derive(Clone, Copy)]
pub struct NetworkDataPart {
    pub start: usize,
    pub len: usize,
    pub counts: Counts,
}

// A payload's values, the last of each type; of type 30 how many lists there are (`child_lists::child_list` hands them out).
#[derive(Clone, Copy)]
pub struct NetDiagData {
    pub ext_mac_addr: Option<Part>,
    pub mac_addr: Option<u16>,
    pub mode: Option<ModeData>,
    pub timeout: Option<u32>,
    pub connectivity: Option<Connectivity>,
    pub route64: Option<Part>,
    pub leader_data: Option<LeaderData>,
    pub network_data: Option<NetworkDataPart>,
    pub addresses: Option<Part>,
    pub mac_counters: Option<MacCounters>,
    pub battery_level: Option<u8>,
    pub supply_voltage: Option<u16>,
    pub child_table: Option<Part>,
    pub channel_pages: Option<Part>,
    pub type_list: Option<Part>,
    pub eui64: Option<Part>,
    pub child_ipv6_addresses: usize,
}

// For each type below 32 where the last entry of it lies, and how many entries have type 30.
#[derive(Clone, Copy)]
struct Places {
    last: [Option<Spot>; 32],
    lists: usize,
}

// One pass over the entries, whether or not the payload is refused.
fn find_all(payload: &[u8]) -> Places
    ensures { Located result payload.now }
{
    let mut p = Places {
        last: [None; 32],
        lists: 0,
    };
    for entry in tlv::entries(payload) {
        if entry.ty < 32 {
            p.last[entry.ty as usize] = Some(Spot {
                place: entry.place,
                start: entry.start,
                len: entry.value.len(),
            });
        }
        if entry.ty == diag_rules::CHILD_IPV6_ADDRESSES {
            p.lists += 1;
        }
    }
    p
}

// Where the last entry of a type lies.
fn found_at(p: Places, ty: u8) -> Option<Spot>
    requires { ty < 32 }
    ensures { option_of result ≡ spot_of p ty }
{
    p.last[ty as usize]
}

// Its value as a part of the payload.
fn part_at(p: Places, ty: u8) -> Option<Part>
    requires { ty < 32 }
    ensures { option_of result ≡ on_given part_of (spot_of p ty) }
{
    match found_at(p, ty) {
        Some(spot) => Some(Part {
            start: spot.start,
            len: spot.len,
        }),
        None => None,
    }
}

// What a reader makes of the value at a spot, where there is one and it keeps the rule of its type.
fn read_at<T, F: FnOnce(&[u8], usize) -> Result<T, Refusal>>(
    payload: &[u8],
    spot: Option<Spot>,
    read: F,
) -> Option<T>
    requires within { InPayload payload.now (option_of spot) }
    requires callable { F.IsAlwaysCallable read }
    ensures { ReadBy (F.post read) payload.now spot result }
{
    match spot {
        Some(Spot { place, start, len }) => read(&payload[start..start + len], place).ok(),
        None => None,
    }
}

// Where Network Data stands, and how many records it has.
fn network_data_in(payload: &[u8], e: Option<Spot>) -> Option<NetworkDataPart>
    requires { InPayload payload.now (option_of e) }
    ensures { opt_network_data payload.now result ≡ network_at payload.now (option_of e) }
{
    match e {
        Some(Spot { place, start, len }) => {
            match network_data::check(&payload[start..start + len], place) {
                Ok(counts) => Some(NetworkDataPart { start, len, counts }),
                Err(_) => None,
            }
        }
        None => None,
    }
}

// The record of a payload, whether or not it is refused.
fn collect(payload: &[u8]) -> NetDiagData
    ensures { diag_of payload.now result ≡ collected payload.now }
{
    let p = find_all(payload);
    NetDiagData {
        ext_mac_addr: part_at(p, diag_rules::EXT_MAC_ADDRESS),
        mac_addr: read_at(
            payload,
            found_at(p, diag_rules::MAC_ADDRESS),
            wire::read_u16,
        ),
        mode: read_at(payload, found_at(p, diag_rules::MODE), ModeData::decode),
        timeout: read_at(payload, found_at(p, diag_rules::TIMEOUT), wire::read_u32),
        connectivity: read_at(
            payload,
            found_at(p, diag_rules::CONNECTIVITY),
            connectivity::decode_connectivity,
        ),
        route64: part_at(p, diag_rules::ROUTE64),
        leader_data: read_at(
            payload,
            found_at(p, diag_rules::LEADER_DATA),
            diag_values::decode_leader_data,
        ),
        network_data: network_data_in(payload, found_at(p, diag_rules::NETWORK_DATA)),
        addresses: part_at(p, diag_rules::IPV6_ADDRESSES),
        mac_counters: read_at(
            payload,
            found_at(p, diag_rules::MAC_COUNTERS),
            diag_values::decode_mac_counters,
        ),
        battery_level: read_at(
            payload,
            found_at(p, diag_rules::BATTERY_LEVEL),
            diag_values::read_u8,
        ),
        supply_voltage: read_at(
            payload,
            found_at(p, diag_rules::SUPPLY_VOLTAGE),
            wire::read_u16,
        ),
        child_table: part_at(p, diag_rules::CHILD_TABLE),
        channel_pages: part_at(p, diag_rules::CHANNEL_PAGES),
        type_list: part_at(p, diag_rules::TYPE_LIST),
        eui64: part_at(p, diag_rules::EUI64),
        child_ipv6_addresses: p.lists,
    }
}

impl NetDiagData {
    // What a payload says. Refusals: 1, 2, 3, then 4, 5 and 12 at the first entry that does not decode.
    pub fn decode(payload: &[u8]) -> Result<NetDiagData, Refusal>
        ensures { decoded_answer payload.now result ≡ decode payload.now }
    {
        diag_entries::check_values(payload)?;
        Ok(collect(payload))
    }
}
