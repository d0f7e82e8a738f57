// What the walker answers of the bytes still to be read: the TLV that stands first, and what follows it.
ghost use Rattle.std.specs.Prelude.{◌≡◌, ◌-◌, length};
ghost use Rattle.network_framing.specs.Frame.{sub_in, sub_answer};
ghost use Rattle.network_walker.specs.Walker.{rest_of};

use network_framing::{SubTlv, sub_in};

// The first TLV of s, or that it is cut short, or that there is none.
pub(crate) fn first_of(s: &[u8]) -> SubTlv
    ensures { sub_answer result ≡ sub_in s.now 0 (length s.now) }
{
    sub_in(s, 0, s.len())
}

// Where what follows the first TLV of s begins: after a cut, at the end of s; and where there is none s has no bytes.
fn rest_at(s: &[u8]) -> usize
    ensures { result ≡ length s.now - length (rest_of s.now) }
{
    match first_of(s) {
        SubTlv::Item { ty: _, start, len } => start + len,
        SubTlv::Cut => s.len(),
        SubTlv::End => 0,
    }
}

// What follows the first TLV of s: nothing where there is none, or it is cut short.
pub(crate) fn rest_of<'a>(s: &'a [u8]) -> &'a [u8]
    ensures { result.now ≡ rest_of s.now }
{
    &s[rest_at(s)..]
}
