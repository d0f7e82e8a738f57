// The fields of a diagnostic record as one number, so that none of them is read in vain.
ghost use Rattle.std.specs.Prelude.{◌≡◌, MatchOption};
ghost use Rattle.connectivity.specs.Answers.{connectivity_paper};
ghost use Rattle.diag.specs.Answers.{diag_of};
ghost use Rattle.value_sums.specs.Sums.{counts_sum};
ghost use Rattle.payload_sums.specs.Sums.{rank, connectivity_sum, leader_sum, counters_sum, values_sum, parts_sum};

use connectivity::Connectivity;
use diag::{NetDiagData, NetworkDataPart};
use diag_rows::Part;
use diag_values::{LeaderData, MacCounters};
use value_sums::{counts_sum, mode_sum, plus};

// What f makes of a field that may be missing.
fn or_zero<T, F: FnOnce(T) -> u64>(x: Option<T>, f: F) -> u64
    requires { F.IsAlwaysCallable f }
    ensures { MatchOption x (result ≡ 0) (λ v. F.post f v result) }
{
    match x {
        Some(v) => f(v),
        None => 0,
    }
}

fn rank(c: Connectivity) -> u64
    ensures { result ≡ rank c.parent_priority }
{
    match c.parent_priority {
        1 => 1,
        0 => 2,
        -1 => 3,
        _ => 4,
    }
}

fn connectivity_sum(c: Connectivity) -> u64
    ensures { result ≡ connectivity_sum (connectivity_paper c) }
{
    let mut n = plus(0, rank(c));
    n = plus(n, c.link_quality_3 as u64);
    n = plus(n, c.link_quality_2 as u64);
    n = plus(n, c.link_quality_1 as u64);
    n = plus(n, c.leader_cost as u64);
    n = plus(n, c.id_sequence as u64);
    n = plus(n, c.active_routers as u64);
    n = plus(n, u64::from(c.rx_off_child_buffer_size.unwrap_or(0)));
    plus(n, u64::from(c.rx_off_child_datagram_count.unwrap_or(0)))
}

fn leader_sum(l: LeaderData) -> u64
    ensures { result ≡ leader_sum l }
{
    let mut n = plus(0, l.partition_id as u64);
    n = plus(n, l.weighting as u64);
    n = plus(n, l.data_version as u64);
    n = plus(n, l.stable_data_version as u64);
    plus(n, l.router_id as u64)
}

fn counters_sum(c: MacCounters) -> u64
    ensures { result ≡ counters_sum c }
{
    let mut n = plus(0, c.if_in_unknown_protos as u64);
    n = plus(n, c.if_in_errors as u64);
    n = plus(n, c.if_out_errors as u64);
    n = plus(n, c.if_in_ucast_pkts as u64);
    n = plus(n, c.if_in_broadcast_pkts as u64);
    n = plus(n, c.if_in_discards as u64);
    n = plus(n, c.if_out_ucast_pkts as u64);
    n = plus(n, c.if_out_broadcast_pkts as u64);
    plus(n, c.if_out_discards as u64)
}

fn network_sum(part: NetworkDataPart) -> u64
    ensures { result ≡ counts_sum part.counts }
{
    counts_sum(part.counts)
}

fn part_len(part: Part) -> u64
    ensures { result ≡ part.len }
{
    part.len as u64
}

// The record of a payload: the values that are read in it.
pub(crate) fn values_sum(payload: &[u8], d: NetDiagData) -> u64
    ensures { result ≡ values_sum (diag_of payload.now d) }
{
    let mut n = plus(0, u64::from(d.mac_addr.unwrap_or(0)));
    n = plus(n, u64::from(d.timeout.unwrap_or(0)));
    n = plus(n, u64::from(d.battery_level.unwrap_or(0)));
    n = plus(n, u64::from(d.supply_voltage.unwrap_or(0)));
    n = plus(n, or_zero(d.mode, mode_sum));
    n = plus(n, or_zero(d.leader_data, leader_sum));
    n = plus(n, or_zero(d.network_data, network_sum));
    n = plus(n, or_zero(d.connectivity, connectivity_sum));
    plus(n, or_zero(d.mac_counters, counters_sum))
}

// And those that stay in the payload as they are.
pub(crate) fn parts_sum(payload: &[u8], d: NetDiagData) -> u64
    ensures { result ≡ parts_sum (diag_of payload.now d) }
{
    let mut n = plus(0, d.child_ipv6_addresses as u64);
    n = plus(n, or_zero(d.ext_mac_addr, part_len));
    n = plus(n, or_zero(d.channel_pages, part_len));
    n = plus(n, or_zero(d.type_list, part_len));
    plus(n, or_zero(d.eui64, part_len))
}
