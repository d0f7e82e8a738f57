// The last entry of a type (tlv.rs): where it lies, and its value as a part of the input.
#![tactic(auto)]

ghost use Rattle.std.specs.Prelude.{◌≡◌};
ghost use Rattle.refusal.specs.Results.{found_of};
ghost use Rattle.tlv_last.specs.Last.{last_spot, last_value};

use refusal::Refusal;

// Where an entry lies: its first byte, its value's first byte, its value's length.
#[derive(Clone, Copy)]
pub struct Spot {
    pub place: usize,
    pub start: usize,
    pub len: usize,
}

// Where the last entry of a type lies in s, which is the caller's input of that number. Refusals: 1, 2, 3.
pub fn last_entry(s: &[u8], ty: u8, input: u8) -> Result<Option<Spot>, Refusal>
    ensures { found_of result ≡ last_spot ty input s.now }
{
    tlv::count_entries(s, input)?;
    let mut best = None;
    for entry in tlv::entries(s) {
        if entry.ty == ty {
            best = Some(Spot {
                place: entry.place,
                start: entry.start,
                len: entry.value.len(),
            });
        }
    }
    Ok(best)
}

// The value of the last entry of a type, as a part of s; no bytes where there is none or s is refused (`last_entry` tells which).
pub fn last_value<'a>(s: &'a [u8], ty: u8) -> &'a [u8]
    ensures { result.now ≡ last_value ty s.now }
{
    match last_entry(s, ty, 0) {
        Ok(Some(spot)) => &s[spot.start..spot.start + spot.len],
        Ok(None) => &s[..0],
        Err(_) => &s[..0],
    }
}
