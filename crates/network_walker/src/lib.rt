// The walker over the TLVs of Thread Network Data (the values of type 7 in decode.rs), and its steps for callers that have a plain slice.
#![tactic(auto)]

mod framing;

ghost use Rattle.std.specs.Prelude.{◌≡◌, length};
ghost use Rattle.network_framing.specs.Frame.{sub_in, sub_answer};
ghost use Rattle.network_walker.specs.Walker.{rest_of};

use framing::{first_of, rest_of};
use network_framing::SubTlv;

// The walker: it keeps the bytes still to be read.
#[derive(Clone, Copy)]
pub struct NetworkDataTlvIter<'a> {
    pub bytes: &'a [u8],
}

impl<'a> NetworkDataTlvIter<'a> {
    pub fn new(bytes: &'a [u8]) -> NetworkDataTlvIter<'a>
        ensures { result.bytes ≡ bytes.entry }
    {
        NetworkDataTlvIter { bytes }
    }

    // The next TLV of the bytes still to be read, or that it is cut short, or that there is none.
    pub fn item(self) -> SubTlv
        ensures { sub_answer result ≡ sub_in self.entry.bytes.now 0 (length self.entry.bytes.now) }
    {
        first_of(self.bytes)
    }

    // The walker after that: at the bytes behind it, and at none after a cut or the end.
    pub fn rest(self) -> NetworkDataTlvIter<'a>
        ensures { result.bytes.now ≡ rest_of self.entry.bytes.now }
    {
        NetworkDataTlvIter {
            bytes: rest_of(self.bytes),
        }
    }
}

// What the walker finds first in these bytes.
pub fn first_tlv(bytes: &[u8]) -> SubTlv
    ensures { sub_answer result ≡ sub_in bytes.now 0 (length bytes.now) }
{
    NetworkDataTlvIter::new(bytes).item()
}

// What it still has to read after that.
pub fn after_first<'a>(bytes: &'a [u8]) -> &'a [u8]
    ensures { result.now ≡ rest_of bytes.now }
{
    NetworkDataTlvIter::new(bytes).rest().bytes
}
