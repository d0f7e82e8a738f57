// How many bytes and entries a record takes.
ghost use Rattle.std.specs.Prelude.{◌≡◌, ◌≤◌};
ghost use Rattle.refusal.specs.Results.{option_of};
ghost use Rattle.diag.specs.Answers.{opt_connectivity};
ghost use Rattle.record_writing.specs.Lent.{opt_counts};
ghost use Rattle.writing_plans.specs.Sizes.{one, part_size, connectivity_size, route_size, network_size, numbers_size, parts_size, fixed_size, numbers_count, parts_count, fixed_count, total_size};

use connectivity::Connectivity;
use diag::{NetDiagData, NetworkDataPart};
use diag_rows::Part;
use route64::Route64;
use writing_walks::{Lists, Prefixes};

// 1 where there is a value.
#[tactic(auto, unfolding(crate::specs::Sizes::one))]
fn one_if<T>(x: &Option<T>) -> usize
    ensures { (result ≡ one (option_of x.now)) × (result ≤ 1) }
{
    usize::from(x.is_some())
}

#[tactic(auto, unfolding(crate::specs::Sizes::part_size), using(crate::proofs::Tested::entry_within))]
fn part_size(x: Option<Part>) -> usize
    ensures { (result ≡ part_size (option_of x)) × (result ≤ 65539) }
{
    match x {
        Some(p) => tlv_writing::entry_size(p.len),
        None => 0,
    }
}

// With the late fields it is longer.
#[tactic(auto, unfolding(crate::specs::Sizes::connectivity_size, value_writing::specs::Encode::connectivity_bytes, value_writing::specs::Encode::late_bytes, wire_bytes::specs::Bytes::bytes_of, tlv_writing::specs::Encode::entry_size, tlv_writing::specs::Encode::size_of))]
fn connectivity_size(x: Option<Connectivity>) -> usize
    ensures { (result ≡ connectivity_size (opt_connectivity x)) × (result ≤ 12) }
{
    match x {
        Some(c)
            if c.rx_off_child_buffer_size.is_some() && c.rx_off_child_datagram_count.is_some() =>
            12,
        Some(_) => 9,
        None => 0,
    }
}

#[tactic(auto, unfolding(crate::specs::Sizes::route_size), using(crate::proofs::Tested::route_sized))]
fn route_size(x: Option<Part>, t: Route64) -> usize
    ensures { (result ≡ route_size (option_of x) t) × (result ≤ 75) }
{
    if x.is_some() && t.count <= 64 {
        t.count + 11
    } else {
        0
    }
}

#[tactic(auto, unfolding(crate::specs::Sizes::network_size), using(crate::proofs::Tested::entry_within))]
fn network_size(x: Option<NetworkDataPart>, size: usize) -> usize
    ensures { (result ≡ network_size (opt_counts x) size) × (result ≤ 65539) }
{
    match x {
        Some(_) => tlv_writing::entry_size(size),
        None => 0,
    }
}

#[tactic(auto, unfolding(crate::specs::Sizes::numbers_size))]
fn numbers_size(r: NetDiagData) -> usize
    ensures { (result ≡ numbers_size r) × (result ≤ 68) }
{
    one_if(&r.mac_addr) * 4
        + (one_if(&r.mode) * 3
            + (one_if(&r.timeout) * 6
                + (one_if(&r.leader_data) * 10
                    + (one_if(&r.mac_counters) * 38
                        + (one_if(&r.battery_level) * 3 + one_if(&r.supply_voltage) * 4)))))
}

#[tactic(auto, unfolding(crate::specs::Sizes::parts_size))]
fn parts_size(r: NetDiagData) -> usize
    ensures { (result ≡ parts_size r) × (result ≤ 393234) }
{
    part_size(r.ext_mac_addr)
        + (part_size(r.addresses)
            + (part_size(r.child_table)
                + (part_size(r.channel_pages) + (part_size(r.type_list) + part_size(r.eui64)))))
}

#[tactic(auto, unfolding(crate::specs::Sizes::fixed_size))]
fn fixed_size(r: NetDiagData, t: Route64) -> usize
    ensures { (result ≡ fixed_size r t) × (result ≤ 393389) }
{
    numbers_size(r)
        + (parts_size(r) + (connectivity_size(r.connectivity) + route_size(r.route64, t)))
}

#[tactic(auto, unfolding(crate::specs::Sizes::numbers_count))]
fn numbers_count(r: NetDiagData) -> usize
    ensures { (result ≡ numbers_count r) × (result ≤ 7) }
{
    one_if(&r.mac_addr)
        + (one_if(&r.mode)
            + (one_if(&r.timeout)
                + (one_if(&r.leader_data)
                    + (one_if(&r.mac_counters)
                        + (one_if(&r.battery_level) + one_if(&r.supply_voltage))))))
}

#[tactic(auto, unfolding(crate::specs::Sizes::parts_count))]
fn parts_count(r: NetDiagData) -> usize
    ensures { (result ≡ parts_count r) × (result ≤ 6) }
{
    one_if(&r.ext_mac_addr)
        + (one_if(&r.addresses)
            + (one_if(&r.child_table)
                + (one_if(&r.channel_pages) + (one_if(&r.type_list) + one_if(&r.eui64)))))
}

#[tactic(auto, unfolding(crate::specs::Sizes::fixed_count), using(crate::proofs::Tested::one_connectivity, crate::proofs::Tested::one_network))]
pub(crate) fn fixed_count(r: NetDiagData) -> usize
    ensures { (result ≡ fixed_count r) × (result ≤ 16) }
{
    numbers_count(r)
        + (parts_count(r)
            + (one_if(&r.connectivity) + (one_if(&r.route64) + one_if(&r.network_data))))
}

// The sum of all, which stays once the prefixes or the lists alone are over the size of a payload.
#[tactic(auto, unfolding(crate::specs::Sizes::total_size))]
pub(crate) fn total_size(r: NetDiagData, t: Route64, p: Prefixes, ls: Lists) -> usize
    ensures { result ≡ total_size r t p ls }
{
    if p.size > refusal::MAX_BYTES {
        return p.size;
    }
    if ls.size > refusal::MAX_BYTES {
        return ls.size;
    }
    fixed_size(r, t) + (network_size(r.network_data, p.size) + ls.size)
}
