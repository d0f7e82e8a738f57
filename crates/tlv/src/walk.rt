// The entries of some bytes, one after the other: the walk that most callers take.
ghost use Rattle.std.specs.Prelude.{◌≡◌};
ghost use Rattle.std.specs.Iterator.{YieldsFirstBy, item_count};
ghost use Rattle.tlv.specs.Entries.{framing};
ghost use Rattle.tlv.specs.Walk.{entries_from, as_entry, left};

use crate::{Frame, frame_at};

// An entry where it lies: the place of its first byte, its type, the place where its value starts, and its value.
#[derive(Clone, Copy)]
pub struct Entry<'a> {
    pub place: usize,
    pub ty: u8,
    pub start: usize,
    pub value: &'a [u8],
}

// A walk over entries, at a place of some bytes.
#[derive(Clone, Copy)]
pub struct EntryIter<'a> {
    bytes: &'a [u8],
    at: usize,
}

// It ends with the bytes, or before an entry that is cut short: `count_entries` tells which.
impl<'a> Iterator for EntryIter<'a> {
    type Item = Entry<'a>;

    ghost next_gives = { YieldsFirstBy as_entry left };

    ghost remaining = { item_count left };

    fn next(&mut self) -> Option<Entry<'a>> {
        let place = self.at;
        match frame_at(self.bytes, place) {
            Frame::Entry { ty, start, len } => {
                self.at = start + len;
                Some(Entry {
                    place,
                    ty,
                    start,
                    value: &self.bytes[start..start + len],
                })
            }
            _ => None,
        }
    }
}

// The entries of some bytes from a place on, where an entry begins.
pub fn entries_from<'a>(bytes: &'a [u8], at: usize) -> EntryIter<'a>
    ensures { left result ≡ entries_from bytes.now at }
{
    EntryIter { bytes, at }
}

// The entries of some bytes.
pub fn entries<'a>(bytes: &'a [u8]) -> EntryIter<'a>
    ensures { left result ≡ (framing bytes.now).entries }
{
    entries_from(bytes, 0)
}
