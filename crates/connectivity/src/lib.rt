// Connectivity, type 4 of a network-diagnostic payload (decode.rs, model.rs), read from its own bytes.
#![tactic(auto)]

ghost use Rattle.std.specs.Prelude.{◌≡◌, ◌≤◌, length};
ghost use Rattle.refusal.specs.Answer.{on_given};
ghost use Rattle.refusal.specs.Results.{answer_of, option_of};
ghost use Rattle.diag_rules.specs.Rule.{value_of};
ghost use Rattle.connectivity.specs.Connectivity.{priority_of, buffer_of, datagrams_of, connectivity_of};
ghost use Rattle.connectivity.specs.Answers.{connectivity_paper};

use refusal::Refusal;

// The priority is 1 high, 0 medium, -1 low, -2 reserved.
#[derive(Clone, Copy)]
pub struct Connectivity {
    pub parent_priority: i8,
    pub link_quality_3: u8,
    pub link_quality_2: u8,
    pub link_quality_1: u8,
    pub leader_cost: u8,
    pub id_sequence: u8,
    pub active_routers: u8,
    pub rx_off_child_buffer_size: Option<u16>,
    pub rx_off_child_datagram_count: Option<u8>,
}

// The top two bits of the first byte as a priority.
fn priority(b: u8) -> i8
    ensures { result ≡ priority_of b }
{
    match b / 64 {
        1 => 1,
        0 => 0,
        3 => -1,
        _ => -2,
    }
}

// The two late fields.
fn buffer_size(v: &[u8]) -> Option<u16>
    ensures { option_of result ≡ buffer_of v.now }
{
    if v.len() < 10 {
        return None;
    }
    Some(u16::from_be_bytes([v[7], v[8]]))
}

fn datagram_count(v: &[u8]) -> Option<u8>
    ensures { option_of result ≡ datagrams_of v.now }
{
    if v.len() < 10 {
        return None;
    }
    Some(v[9])
}

fn connectivity_of(v: &[u8]) -> Connectivity
    requires { 7 ≤ length v.now }
    ensures { connectivity_paper result ≡ connectivity_of v.now }
{
    Connectivity {
        parent_priority: priority(v[0]),
        link_quality_3: v[1],
        link_quality_2: v[2],
        link_quality_1: v[3],
        leader_cost: v[4],
        id_sequence: v[5],
        active_routers: v[6],
        rx_off_child_buffer_size: buffer_size(v),
        rx_off_child_datagram_count: datagram_count(v),
    }
}

// Refusals: those of `diag_rules::check_value`.
pub fn decode_connectivity(value: &[u8], place: usize) -> Result<Connectivity, Refusal>
    ensures { on_given connectivity_paper (answer_of result) ≡ on_given connectivity_of (value_of 4 place value.now) }
{
    diag_rules::check_value(diag_rules::CONNECTIVITY, value, place)?;
    Ok(connectivity_of(value))
}
