// The types of the values of a network-diagnostic payload, and whether a value keeps the rule of its type (decode.rs), which is one for its length.
#![tactic(auto)]

ghost use Rattle.std.specs.Prelude.{◌≡◌, ◌≤◌, length};
ghost use Rattle.refusal.specs.Results.{answer_of};
ghost use Rattle.diag_rules.specs.Mask.{bit_of, routers_of, routes_fit};
ghost use Rattle.diag_rules.specs.Rule.{diag_types, part_sizes, keeps_rule, value_of};
ghost use Rattle.diag_rules.specs.Answers.{judged};

use refusal::{Fault, Refusal};

// The types of the values, as decode.rs names them.
pub const EXT_MAC_ADDRESS: u8 = 0;

pub const MAC_ADDRESS: u8 = 1;

pub const MODE: u8 = 2;

pub const TIMEOUT: u8 = 3;

pub const CONNECTIVITY: u8 = 4;

pub const ROUTE64: u8 = 5;

pub const LEADER_DATA: u8 = 6;

pub const NETWORK_DATA: u8 = 7;

pub const IPV6_ADDRESSES: u8 = 8;

pub const MAC_COUNTERS: u8 = 9;

pub const BATTERY_LEVEL: u8 = 14;

pub const SUPPLY_VOLTAGE: u8 = 15;

pub const CHILD_TABLE: u8 = 16;

pub const CHANNEL_PAGES: u8 = 17;

pub const TYPE_LIST: u8 = 18;

pub const EUI64: u8 = 23;

pub const CHILD_IPV6_ADDRESSES: u8 = 30;
// The bytes of a Route64's mask, and of a row of a child table.
pub const ROUTER_ID_MASK_LEN: usize = 8;

pub const CHILD_ENTRY_LEN: usize = 3;
// The routes of a Route64 stand after the sequence and the mask.
const ROUTES_AT: usize = 1 + ROUTER_ID_MASK_LEN;

// The public constants, held to their numbers.
fn constants() -> [u8; 17]
    ensures { result ≡ diag_types }
{
    [
        EXT_MAC_ADDRESS,
        MAC_ADDRESS,
        MODE,
        TIMEOUT,
        CONNECTIVITY,
        ROUTE64,
        LEADER_DATA,
        NETWORK_DATA,
        IPV6_ADDRESSES,
        MAC_COUNTERS,
        BATTERY_LEVEL,
        SUPPLY_VOLTAGE,
        CHILD_TABLE,
        CHANNEL_PAGES,
        TYPE_LIST,
        EUI64,
        CHILD_IPV6_ADDRESSES,
    ]
}

fn size_constants() -> [usize; 2]
    ensures { result ≡ part_sizes }
{
    [ROUTER_ID_MASK_LEN, CHILD_ENTRY_LEN]
}

// Whether a byte of a Route64's mask assigns router k, which is one of its eight.
pub fn assigns(byte: u8, k: usize) -> bool
    ensures { result ≡ bit_of byte k }
{
    let shift = (7 - k % 8) as u8;
    (byte >> shift) % 2 == 1
}

// How many routers a value's mask assigns: as many as bits are set in its bytes.
fn count_routers(v: &[u8]) -> usize
    requires { 9 ≤ length v.now }
    ensures { (result ≡ length (routers_of v.now)) × (result ≤ 64) }
{
    let mut n: usize = 0;
    for b in &v[1..ROUTES_AT] {
        n += b.count_ones() as usize;
    }
    n
}

// Whether a value is as long as its mask asks: the rule of type 5.
fn routes_fit(v: &[u8]) -> bool
    ensures { result ≡ routes_fit v.now }
{
    v.len() >= ROUTES_AT && v.len() == ROUTES_AT + count_routers(v)
}

// Whether the length of a value keeps the rule of its type: document 01's table.
fn keeps_rule(ty: u8, v: &[u8]) -> bool
    ensures { result ≡ keeps_rule ty v.now }
{
    let n = v.len();
    match ty {
        MAC_ADDRESS => n == 2,
        MODE => n == 1,
        TIMEOUT => n == 4,
        CONNECTIVITY => n >= 7,
        ROUTE64 => routes_fit(v),
        LEADER_DATA => n == 8,
        IPV6_ADDRESSES => n % 16 == 0,
        MAC_COUNTERS => n == 36,
        BATTERY_LEVEL => n == 1,
        SUPPLY_VOLTAGE => n == 2,
        CHILD_TABLE => n % CHILD_ENTRY_LEN == 0,
        EUI64 => n == 8,
        CHILD_IPV6_ADDRESSES => n >= 2 && (n - 2) % 16 == 0,
        _ => true,
    }
}

// Whether a value of a type may be read. Refusals: 1, then 4 at the place of its entry, which is 0 for a bare value. A type that is not known
// takes any bytes, and so does 7, whose own rules are not these.
pub fn check_value(ty: u8, value: &[u8], place: usize) -> Result<(), Refusal>
    ensures { answer_of result ≡ judged (value_of ty place value.now) }
{
    if value.len() > refusal::MAX_BYTES {
        return refusal::refuse(Fault::TooLarge, 0);
    }
    if keeps_rule(ty, value) {
        return Ok(());
    }
    refusal::refuse(Fault::BadLength, place)
}
