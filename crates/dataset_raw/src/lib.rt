// A dataset (dataset.rs): the last value of a type as it is, and the PSKc, which has no rule of its own.
#![tactic(auto)]

ghost use Rattle.std.specs.Prelude.{◌≡◌};
ghost use Rattle.refusal.specs.Results.{found_of};
ghost use Rattle.dataset_raw.specs.Types.{raw_types};
ghost use Rattle.tlv_last.specs.Last.{last_spot, last_value};

use refusal::Refusal;
use tlv_last::Spot;

pub const TLV_PSKC: u8 = 0x04;

// The public constants, held to their numbers.
fn constants() -> [u8; 1]
    ensures { result ≡ raw_types }
{
    [TLV_PSKC]
}

// Where the last entry of a type lies. Refusals: 1, 2, 3.
pub fn raw(s: &[u8], ty: u8) -> Result<Option<Spot>, Refusal>
    ensures { found_of result ≡ last_spot ty 0 s.now }
{
    tlv_last::last_entry(s, ty, 0)
}

// Its value, as a part of s; no bytes where there is none (`raw` tells which).
pub fn raw_value<'a>(s: &'a [u8], ty: u8) -> &'a [u8]
    ensures { result.now ≡ last_value ty s.now }
{
    tlv_last::last_value(s, ty)
}

// Where the PSKc lies. Refusals: 1, 2, 3.
pub fn pskc(s: &[u8]) -> Result<Option<Spot>, Refusal>
    ensures { found_of result ≡ last_spot 4 0 s.now }
{
    tlv_last::last_entry(s, TLV_PSKC, 0)
}

pub fn pskc_value<'a>(s: &'a [u8]) -> &'a [u8]
    ensures { result.now ≡ last_value 4 s.now }
{
    tlv_last::last_value(s, TLV_PSKC)
}
