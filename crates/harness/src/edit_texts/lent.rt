// Lent outputs: filled with a pattern before a call, and looked at after it.
ghost use Rattle.std.specs.Prelude.{◌≤◌, length};

use crate::texts::{PATTERN, Room, part_of, put_bytes_value, put_dirty, put_refusal};
use refusal::Refusal;

// How much of out is lent where cap bytes are asked for, which it fills with the pattern: all of out where out has fewer, since no result
// of the library is that long.
pub(crate) fn lend(out: &mut [u8], cap: u64) -> usize
    ensures { result ≤ length out.old }
{
    let n = out.len().min(cap as usize);
    out[..n].fill(PATTERN);
    n
}

// Whether anything from a place on is no longer the pattern. No early return: the compiler makes a quick loop of it.
pub(crate) fn changed(lent: &[u8], from: usize) -> bool {
    let mut seen = 0;
    for b in part_of(lent, from, lent.len()) {
        seen |= *b ^ PATTERN;
    }
    seen != 0
}

// The answer of a call that wrote into what was lent.
pub(crate) fn put_written(
    text: &mut Room,
    at: usize,
    written: Result<usize, Refusal>,
    lent: &[u8],
) -> usize {
    match written {
        Ok(n) => {
            let end = put_bytes_value(text, at, part_of(lent, 0, n));
            put_dirty(text, end, changed(lent, n))
        }
        Err(r) => {
            let end = put_refusal(text, at, r);
            put_dirty(text, end, changed(lent, 0))
        }
    }
}
