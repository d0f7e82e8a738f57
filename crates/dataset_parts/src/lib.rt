// A dataset (dataset.rs): the network name and the channel mask, which are handed out as parts of it where they are good.
#![tactic(auto)]

ghost use Rattle.std.specs.Prelude.{◌≡◌};
ghost use Rattle.refusal.specs.Answer.{on_given};
ghost use Rattle.refusal.specs.Results.{found_of};
ghost use Rattle.tlv_last.specs.Last.{spot, value_or};
ghost use Rattle.dataset_parts.specs.Parts.{part_types, name_entry, mask_entry, mask_spot};

use plain_values::check_name;
use refusal::Refusal;
use tlv_last::Spot;

pub const TLV_NETWORK_NAME: u8 = 0x03;

pub const TLV_CHANNEL_MASK: u8 = 0x35;

// The public constants, held to their numbers.
fn constants() -> [u8; 2]
    ensures { result ≡ part_types }
{
    [TLV_NETWORK_NAME, TLV_CHANNEL_MASK]
}

// Where a channel mask lies, and how many items it has.
#[derive(Clone, Copy)]
pub struct MaskSpot {
    pub place: usize,
    pub start: usize,
    pub len: usize,
    pub items: usize,
}

// Where the network name lies. Refusals: 1, 2, 3, then 6 at its entry.
pub fn network_name(s: &[u8]) -> Result<Option<Spot>, Refusal>
    ensures { found_of result ≡ on_given spot (name_entry s.now) }
{
    match tlv_last::last_entry(s, TLV_NETWORK_NAME, 0)? {
        Some(spot) => {
            check_name(&s[spot.start..spot.start + spot.len], spot.place)?;
            Ok(Some(spot))
        }
        None => Ok(None),
    }
}

// The network name, as a part of s; no bytes where there is none (`network_name` tells which).
pub fn network_name_value<'a>(s: &'a [u8]) -> &'a [u8]
    ensures { result.now ≡ value_or (name_entry s.now) }
{
    match network_name(s) {
        Ok(Some(name)) => &s[name.start..name.start + name.len],
        Ok(None) => &s[..0],
        Err(_) => &s[..0],
    }
}

// Where the channel mask lies, and how many items it has. Refusals: 1, 2, 3, then 5 at its entry.
#[tactic(auto, using(refusal::proofs::Papers::passes, crate::proofs::Keeps::mask_by_spot))]
pub fn channel_mask(s: &[u8]) -> Result<Option<MaskSpot>, Refusal>
    ensures { found_of result ≡ mask_spot s.now }
{
    match tlv_last::last_entry(s, TLV_CHANNEL_MASK, 0)? {
        Some(Spot { place, start, len }) => {
            let items = channel_masks::count_mask_items(&s[start..start + len], place)?;
            Ok(Some(MaskSpot {
                place,
                start,
                len,
                items,
            }))
        }
        None => Ok(None),
    }
}

// The channel mask, as a part of s to walk with `channel_masks::mask_item_at`; no bytes where there is none (`channel_mask` tells which).
pub fn channel_mask_value<'a>(s: &'a [u8]) -> &'a [u8]
    ensures { result.now ≡ value_or (mask_entry s.now) }
{
    match channel_mask(s) {
        Ok(Some(mask)) => &s[mask.start..mask.start + mask.len],
        Ok(None) => &s[..0],
        Err(_) => &s[..0],
    }
}
