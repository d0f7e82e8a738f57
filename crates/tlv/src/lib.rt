// Entries of a type byte, a length and a value (tlv.rs): framing.
#![tactic(auto)]

mod walk;

ghost use Rattle.std.specs.Prelude.{◌≡◌, [], ◌∷◌};
ghost use Rattle.refusal.specs.Sizes.{most_short, most_value};
ghost use Rattle.refusal.specs.Results.{answer_of};
ghost use Rattle.tlv.specs.Entries.{marker, first};
ghost use Rattle.tlv.specs.Limits.{count};
ghost use Rattle.tlv.specs.Place.{frame_at};
ghost use Rattle.tlv.specs.Answers.{head_of, ended};

use refusal::{Fault, Refusal};
pub use walk::{Entry, EntryIter, entries, entries_from};

// The longest value under a short header, the length byte that announces a long one, and the longest value of all.
pub const MAX_STANDARD_TLV_LENGTH: usize = 254;

pub const EXTENDED_TLV_MARKER: u8 = 255;

pub const MAX_EXTENDED_TLV_LENGTH: usize = 65535;

// The public constants, held to their numbers.
fn constants() -> [usize; 2]
    ensures { result ≡ most_short ∷ most_value ∷ [] }
{
    [MAX_STANDARD_TLV_LENGTH, MAX_EXTENDED_TLV_LENGTH]
}

fn byte_constants() -> [u8; 1]
    ensures { result ≡ marker ∷ [] }
{
    [EXTENDED_TLV_MARKER]
}

// What stands at a place: an entry, whose value is the len bytes from start on; an entry that is cut short; or nothing.
#[derive(Clone, Copy)]
pub enum Frame {
    Entry { ty: u8, start: usize, len: usize },
    Cut,
    End,
}

// The first entry of some bytes by itself: its type, the size of its header, the length of its value.
#[derive(Clone, Copy)]
pub struct Head {
    pub ty: u8,
    pub header: usize,
    pub len: usize,
}

// What stands at a place of s: the step of every walk over entries.
pub fn frame_at(s: &[u8], at: usize) -> Frame
    ensures { result ≡ frame_at s.now at }
{
    let n = s.len();
    if n <= at {
        return Frame::End;
    }
    if n - at < 2 {
        return Frame::Cut;
    }
    let ty = s[at];
    let short = s[at + 1] as usize;
    if short == EXTENDED_TLV_MARKER as usize {
        if n - at < 4 {
            return Frame::Cut;
        }
        let long = usize::from(u16::from_be_bytes([s[at + 2], s[at + 3]]));
        if long <= n - (at + 4) {
            return Frame::Entry {
                ty,
                start: at + 4,
                len: long,
            };
        }
        return Frame::Cut;
    }
    if short <= n - (at + 2) {
        return Frame::Entry {
            ty,
            start: at + 2,
            len: short,
        };
    }
    Frame::Cut
}

// The first entry of s, of which only that is looked at. Refusal: 2.
pub fn parse_one(s: &[u8]) -> Result<Head, Refusal>
    ensures { answer_of result ≡ head_of (first s.now) }
{
    match frame_at(s, 0) {
        Frame::Entry { ty, start, len } => Ok(Head {
            ty,
            header: start,
            len,
        }),
        _ => refusal::refuse(Fault::Cut, 0),
    }
}

// What a walk over entries or operations answers where it ends, n of them passed: the fault that stopped it, at its place, before 3 at the place of the first
// past the most, over.
pub fn stopped(
    fault: Option<Fault>,
    at: usize,
    n: usize,
    over: usize,
    input: u8,
) -> Result<usize, Refusal>
    ensures { answer_of result ≡ ended fault at n over input }
{
    match fault {
        Some(fault) => Err(Refusal {
            fault,
            place: at,
            input,
        }),
        None if n > refusal::MAX_ENTRIES => Err(Refusal {
            fault: Fault::TooMany,
            place: over,
            input,
        }),
        None => Ok(n),
    }
}

// How many entries s has, which is the caller's input of that number. Refusals: 1, 2, 3.
pub fn count_entries(s: &[u8], input: u8) -> Result<usize, Refusal>
    ensures { answer_of result ≡ count input s.now }
{
    if s.len() > refusal::MAX_BYTES {
        return Err(Refusal {
            fault: Fault::TooLarge,
            place: 0,
            input,
        });
    }
    let mut at: usize = 0;
    let mut n: usize = 0;
    let mut over: usize = 0;
    loop {
        match frame_at(s, at) {
            Frame::End => {
                return stopped(None, at, n, over, input);
            }
            Frame::Cut => {
                return stopped(Some(Fault::Cut), at, n, over, input);
            }
            Frame::Entry { ty: _, start, len } => {
                if n == refusal::MAX_ENTRIES {
                    over = at;
                }
                n += 1;
                at = start + len;
            }
        }
    }
}
