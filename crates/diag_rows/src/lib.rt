// The values of a network-diagnostic payload that have rows (decode.rs, model.rs): a child table, addresses, and a child's address list. Routes are in
// `route64`.
#![tactic(auto)]

ghost use Rattle.std.specs.Prelude.{◌≡◌, List, ℕ, ◌+◌, ◌%◌, ◌≤◌, length};
ghost use Rattle.refusal.specs.Answer.{on_given, then_do};
ghost use Rattle.refusal.specs.Numbered.{nth};
ghost use Rattle.refusal.specs.Results.{answer_of, found_of};
ghost use Rattle.diag_rules.specs.Rule.{value_of};
ghost use Rattle.diag_rows.specs.Rows.{child_at, child_rows, addresses, address_parts, timeout_seconds, or_empty, address_list_of};

use diag_values::ModeData;
use refusal::Refusal;

// One row of a child table.
#[derive(Clone, Copy)]
pub struct ChildTableEntry {
    pub timeout_exponent: u8,
    pub incoming_link_quality: u8,
    pub child_id: u16,
    pub mode: ModeData,
}

// The addresses of a child are the len bytes of the value from start on: an IPv6 address list of its own.
#[derive(Clone, Copy)]
pub struct ChildIpv6AddrInfo {
    pub rloc16: u16,
    pub child_id: u16,
    pub start: usize,
    pub len: usize,
}

// A part of a value: the len bytes from start on.
#[derive(Clone, Copy)]
pub struct Part {
    pub start: usize,
    pub len: usize,
}

// Type 30.
fn address_list_of(v: &[u8]) -> ChildIpv6AddrInfo
    requires { 2 ≤ length v.now }
    ensures { result ≡ address_list_of v.now }
{
    let rloc16 = u16::from_be_bytes([v[0], v[1]]);
    ChildIpv6AddrInfo {
        rloc16,
        child_id: rloc16 % 512,
        start: 2,
        len: v.len() - 2,
    }
}

// A child's RLOC16, its ID, and where its addresses stand in the value. Refusals, here and below: those of `diag_rules::check_value`.
pub fn decode_child_ipv6_addresses(value: &[u8], place: usize) -> Result<ChildIpv6AddrInfo, Refusal>
    ensures { answer_of result ≡ on_given address_list_of (value_of 30 place value.now) }
{
    diag_rules::check_value(diag_rules::CHILD_IPV6_ADDRESSES, value, place)?;
    Ok(address_list_of(value))
}

// Type 16: the three bytes of a child table from a place on.
fn child_at(v: &[u8], at: usize) -> ChildTableEntry
    requires { at + 3 ≤ length v.now }
    ensures { result ≡ child_at v.now at }
{
    let bits = u16::from_be_bytes([v[at], v[at + 1]]);
    ChildTableEntry {
        timeout_exponent: (bits / 2048 % 32) as u8,
        incoming_link_quality: (bits / 512 % 4) as u8,
        child_id: bits % 512,
        mode: diag_values::mode_of(v[at + 2]),
    }
}

// Row k of a child table, from 0 on. Refusals of the row calls: those of `diag_rules::check_value` at place 0.
pub fn child_row(value: &[u8], k: usize) -> Result<Option<ChildTableEntry>, Refusal>
    ensures { found_of result ≡ then_do (value_of 16 0 value.now) (λ (v : List ℕ). nth (child_rows v) k) }
{
    diag_rules::check_value(diag_rules::CHILD_TABLE, value, 0)?;
    if value.len() / diag_rules::CHILD_ENTRY_LEN <= k {
        return Ok(None);
    }
    Ok(Some(child_at(value, k * diag_rules::CHILD_ENTRY_LEN)))
}

impl ChildTableEntry {
    // The child's timeout in whole seconds. The exponent has five bits; of a larger one, which no row has, the low five count.
    pub fn timeout_seconds(self) -> u32
        ensures { result ≡ timeout_seconds (self.timeout_exponent % 32) }
    {
        let exponent = self.timeout_exponent % 32;
        if exponent < 4 {
            return 0;
        }
        1u32 << ((exponent - 4) as u32)
    }
}

// Type 8: where address k of an IPv6 address list stands, from 0 on.
pub fn address_at(value: &[u8], k: usize) -> Result<Option<Part>, Refusal>
    ensures { found_of result ≡ then_do (value_of 8 0 value.now) (λ (v : List ℕ). nth (address_parts v) k) }
{
    diag_rules::check_value(diag_rules::IPV6_ADDRESSES, value, 0)?;
    if value.len() / 16 <= k {
        return Ok(None);
    }
    Ok(Some(Part {
        start: k * 16,
        len: 16,
    }))
}

// Its bytes; none where `address_at` gives none.
pub fn address<'a>(value: &'a [u8], k: usize) -> &'a [u8]
    ensures { result.now ≡ or_empty (then_do (value_of 8 0 value.now) (λ (v : List ℕ). nth (addresses v) k)) }
{
    match address_at(value, k) {
        Ok(Some(part)) => &value[part.start..part.start + part.len],
        Ok(None) => &value[..0],
        Err(_) => &value[..0],
    }
}
