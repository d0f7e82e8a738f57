// A dataset (dataset.rs): its queries for a value that has a type of its own.
#![tactic(auto)]

ghost use Rattle.std.specs.Prelude.{◌≡◌, List, ℕ};
ghost use Rattle.refusal.specs.Results.{found_of};
ghost use Rattle.wire.specs.Be.{be};
ghost use Rattle.values.specs.Typed.{channel_of, policy_of};
ghost use Rattle.timestamps.specs.Timestamps.{timestamp_of};
ghost use Rattle.dataset.specs.Queries.{tlv_types, query};
ghost use Rattle.dataset.specs.Reads.{Reads};
ghost use Rattle.tlv_last.specs.Last.{last_entry};

use plain_values::read_array;
use refusal::Refusal;
use timestamps::Timestamp;
use tlv_last::Spot;
use values::{Channel, SecurityPolicy};

pub const TLV_CHANNEL: u8 = 0x00;

pub const TLV_PAN_ID: u8 = 0x01;

pub const TLV_EXTENDED_PAN_ID: u8 = 0x02;

pub const TLV_NETWORK_KEY: u8 = 0x05;

pub const TLV_MESH_LOCAL_PREFIX: u8 = 0x07;

pub const TLV_SECURITY_POLICY: u8 = 0x0c;

pub const TLV_ACTIVE_TIMESTAMP: u8 = 0x0e;

pub const TLV_PENDING_TIMESTAMP: u8 = 0x33;

pub const TLV_DELAY_TIMER: u8 = 0x34;

// The public constants, held to their numbers.
fn constants() -> [u8; 9]
    ensures { result ≡ tlv_types }
{
    [
        TLV_CHANNEL,
        TLV_PAN_ID,
        TLV_EXTENDED_PAN_ID,
        TLV_NETWORK_KEY,
        TLV_MESH_LOCAL_PREFIX,
        TLV_SECURITY_POLICY,
        TLV_ACTIVE_TIMESTAMP,
        TLV_PENDING_TIMESTAMP,
        TLV_DELAY_TIMER,
    ]
}

// What `read` makes of the last value of a type, which it is given with the place of its entry: what the queries below share.
fn last_read<T, F: Fn(&[u8], usize) -> Result<T, Refusal>>(
    s: &[u8],
    ty: u8,
    read: F,
) -> Result<Option<T>, Refusal>
    requires { F.IsAlwaysCallable read }
    ensures { Reads (F.post read) (last_entry ty 0 s.now) result }
{
    match tlv_last::last_entry(s, ty, 0)? {
        Some(Spot { place, start, len }) => Ok(Some(read(&s[start..start + len], place)?)),
        None => Ok(None),
    }
}

// The typed queries. Refusals: 1, 2, 3, then 4 at the value's entry.
pub fn channel(s: &[u8]) -> Result<Option<Channel>, Refusal>
    ensures { found_of result ≡ query 0 channel_of s.now }
{
    last_read(s, TLV_CHANNEL, Channel::parse)
}

pub fn pan_id(s: &[u8]) -> Result<Option<u16>, Refusal>
    ensures { found_of result ≡ query 1 be s.now }
{
    last_read(s, TLV_PAN_ID, wire::read_u16)
}

pub fn delay_timer(s: &[u8]) -> Result<Option<u32>, Refusal>
    ensures { found_of result ≡ query 52 be s.now }
{
    last_read(s, TLV_DELAY_TIMER, wire::read_u32)
}

pub fn active_timestamp(s: &[u8]) -> Result<Option<Timestamp>, Refusal>
    ensures { found_of result ≡ query 14 timestamp_of s.now }
{
    last_read(s, TLV_ACTIVE_TIMESTAMP, Timestamp::parse)
}

pub fn pending_timestamp(s: &[u8]) -> Result<Option<Timestamp>, Refusal>
    ensures { found_of result ≡ query 51 timestamp_of s.now }
{
    last_read(s, TLV_PENDING_TIMESTAMP, Timestamp::parse)
}

pub fn security_policy(s: &[u8]) -> Result<Option<SecurityPolicy>, Refusal>
    ensures { found_of result ≡ query 12 policy_of s.now }
{
    last_read(s, TLV_SECURITY_POLICY, SecurityPolicy::parse)
}

pub fn extended_pan_id(s: &[u8]) -> Result<Option<[u8; 8]>, Refusal>
    ensures { found_of result ≡ query 2 (λ (v : List ℕ). v) s.now }
{
    last_read(s, TLV_EXTENDED_PAN_ID, read_array)
}

pub fn mesh_local_prefix(s: &[u8]) -> Result<Option<[u8; 8]>, Refusal>
    ensures { found_of result ≡ query 7 (λ (v : List ℕ). v) s.now }
{
    last_read(s, TLV_MESH_LOCAL_PREFIX, read_array)
}

pub fn network_key(s: &[u8]) -> Result<Option<[u8; 16]>, Refusal>
    ensures { found_of result ≡ query 5 (λ (v : List ℕ). v) s.now }
{
    last_read(s, TLV_NETWORK_KEY, read_array)
}
