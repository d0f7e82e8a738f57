// The buffers: made once, and lent to every request. A room takes the input, the bytes of a request's words, or the answers not yet written.
use crate::texts::{ROOM, Room};

// What a call can be lent: more than any result has, the longest being a nested listing, 7 times the most bytes, and an entry of 65,539.
const LENT: usize = 8 * refusal::MAX_BYTES;

pub(crate) type Lent = [u8; LENT];

pub(crate) fn room() -> Room {
    [0; ROOM]
}

pub(crate) fn lent() -> Lent {
    [0; LENT]
}
