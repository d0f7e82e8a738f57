// The values of a network-diagnostic payload (decode.rs, model.rs) that are one number or one record, each read from its own bytes. Those with rows
// are in `diag_rows` and `route64`, Connectivity in `connectivity`; Network Data, type 7, is in none of them.
#![tactic(auto)]

ghost use Rattle.std.specs.Prelude.{◌≡◌, List, ℕ, ◌+◌, ◌≤◌, length};
ghost use Rattle.refusal.specs.Answer.{on_given};
ghost use Rattle.refusal.specs.Results.{answer_of};
ghost use Rattle.diag_rules.specs.Mask.{byte_at};
ghost use Rattle.diag_rules.specs.Rule.{value_of};
ghost use Rattle.diag_values.specs.Values.{number_at, mode_of, mode_value, leader_of, counters_of};

use refusal::Refusal;

// The bits of an MLE Mode byte.
#[derive(Clone, Copy)]
pub struct ModeData {
    pub rx_on_when_idle: bool,
    pub is_mtd: bool,
    pub requires_full_network_data: bool,
}

#[derive(Clone, Copy)]
pub struct LeaderData {
    pub partition_id: u32,
    pub weighting: u8,
    pub data_version: u8,
    pub stable_data_version: u8,
    pub router_id: u8,
}

#[derive(Clone, Copy)]
pub struct MacCounters {
    pub if_in_unknown_protos: u32,
    pub if_in_errors: u32,
    pub if_out_errors: u32,
    pub if_in_ucast_pkts: u32,
    pub if_in_broadcast_pkts: u32,
    pub if_in_discards: u32,
    pub if_out_ucast_pkts: u32,
    pub if_out_broadcast_pkts: u32,
    pub if_out_discards: u32,
}

// The number that four bytes of a value spell.
#[tactic(auto, using(crate::proofs::Numbers::four_spell))]
fn u32_at(v: &[u8], at: usize) -> u32
    requires { at + 4 ≤ length v.now }
    ensures { result ≡ number_at 4 at v.now }
{
    u32::from_be_bytes([v[at], v[at + 1], v[at + 2], v[at + 3]])
}

// Type 14: its one byte. Types 1 and 15 are `wire::read_u16`, type 3 `wire::read_u32`. Refusals, here and below: those of `diag_rules::check_value`.
pub fn read_u8(value: &[u8], place: usize) -> Result<u8, Refusal>
    ensures { answer_of result ≡ on_given (λ (v : List ℕ). byte_at v 0) (value_of 14 place value.now) }
{
    diag_rules::check_value(diag_rules::BATTERY_LEVEL, value, place)?;
    Ok(value[0])
}

// The bits of a mode byte.
pub fn mode_of(b: u8) -> ModeData
    ensures { result ≡ mode_of b }
{
    ModeData {
        rx_on_when_idle: b / 8 % 2 == 1,
        is_mtd: b / 2 % 2 == 0,
        requires_full_network_data: b % 2 == 1,
    }
}

impl ModeData {
    // Type 2.
    pub fn decode(value: &[u8], place: usize) -> Result<ModeData, Refusal>
        ensures { answer_of result ≡ on_given mode_value (value_of 2 place value.now) }
    {
        diag_rules::check_value(diag_rules::MODE, value, place)?;
        Ok(mode_of(value[0]))
    }
}

// Type 6.
fn leader_data_of(v: &[u8]) -> LeaderData
    requires { length v.now ≡ 8 }
    ensures { result ≡ leader_of v.now }
{
    LeaderData {
        partition_id: u32_at(v, 0),
        weighting: v[4],
        data_version: v[5],
        stable_data_version: v[6],
        router_id: v[7],
    }
}

pub fn decode_leader_data(value: &[u8], place: usize) -> Result<LeaderData, Refusal>
    ensures { answer_of result ≡ on_given leader_of (value_of 6 place value.now) }
{
    diag_rules::check_value(diag_rules::LEADER_DATA, value, place)?;
    Ok(leader_data_of(value))
}

// Type 9.
fn mac_counters_of(v: &[u8]) -> MacCounters
    requires { length v.now ≡ 36 }
    ensures { result ≡ counters_of v.now }
{
    MacCounters {
        if_in_unknown_protos: u32_at(v, 0),
        if_in_errors: u32_at(v, 4),
        if_out_errors: u32_at(v, 8),
        if_in_ucast_pkts: u32_at(v, 12),
        if_in_broadcast_pkts: u32_at(v, 16),
        if_in_discards: u32_at(v, 20),
        if_out_ucast_pkts: u32_at(v, 24),
        if_out_broadcast_pkts: u32_at(v, 28),
        if_out_discards: u32_at(v, 32),
    }
}

pub fn decode_mac_counters(value: &[u8], place: usize) -> Result<MacCounters, Refusal>
    ensures { answer_of result ≡ on_given counters_of (value_of 9 place value.now) }
{
    diag_rules::check_value(diag_rules::MAC_COUNTERS, value, place)?;
    Ok(mac_counters_of(value))
}
