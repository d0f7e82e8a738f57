// One entry as it is written (tlv.rs): its size, and the entry from a place on or at the start of an output.
#![tactic(auto)]

ghost use Rattle.std.specs.Prelude.{◌≡◌, ◌+◌, ◌≤◌, length};
ghost use Rattle.refusal.specs.Sizes.{most_value};
ghost use Rattle.refusal.specs.Output.{output, emit, put, placing};
ghost use Rattle.refusal.specs.Results.{answer_of};
ghost use Rattle.tlv_writing.specs.Encode.{header, headed, entry_size, encoded, placed_if};

use refusal::{Fault, Refusal};

// How many bytes an entry takes whose value has n bytes; 0 where n is over 65,535, since no entry has so long a value.
pub fn entry_size(n: usize) -> usize
    ensures { result ≡ entry_size n }
{
    if n <= tlv::MAX_STANDARD_TLV_LENGTH {
        return n + 2;
    }
    if n <= tlv::MAX_EXTENDED_TLV_LENGTH {
        return n + 4;
    }
    0
}

// The header of an entry whose value has n bytes, from at on; the place after it.
fn store_header(ty: u8, n: usize, out: &mut [u8], at: usize) -> usize
    requires { (n ≤ most_value) × (at + length (header ty n) ≤ length out.old) }
    ensures { (result ≡ at + length (header ty n)) × (out.new ≡ put out.old at (header ty n)) }
{
    out[at] = ty;
    if n <= tlv::MAX_STANDARD_TLV_LENGTH {
        out[at + 1] = n as u8;
        return at + 2;
    }
    out[at + 1] = tlv::EXTENDED_TLV_MARKER;
    out[at + 2] = (n / 256) as u8;
    out[at + 3] = (n % 256) as u8;
    at + 4
}

// The header alone of an entry whose value has len bytes, at the start of out. Refusals: 13, 11.
pub fn encode_header(ty: u8, len: usize, out: &mut [u8]) -> Result<usize, Refusal>
    ensures { output (answer_of result) out.new ≡ emit (headed ty len) out.old }
{
    if len > tlv::MAX_EXTENDED_TLV_LENGTH {
        return refusal::refuse(Fault::ValueTooLong, 0);
    }
    if entry_size(len) - len > out.len() {
        return refusal::refuse(Fault::NoRoom, 0);
    }
    Ok(store_header(ty, len, out, 0))
}

// The header of an entry whose value has len bytes, from at on, and the place after it; or nothing, and at, where it has no room or the value would be
// over 65,535 bytes.
pub fn put_header(ty: u8, len: usize, out: &mut [u8], at: usize) -> usize
    ensures { placing result out.new ≡ placed_if (headed ty len) at out.old }
{
    if len > tlv::MAX_EXTENDED_TLV_LENGTH {
        return at;
    }
    if at > out.len() {
        return at;
    }
    if entry_size(len) - len > out.len() - at {
        return at;
    }
    store_header(ty, len, out, at)
}

// An entry into out from at on, and the place after it; or nothing, and at, where it has no room or its value is over 65,535 bytes.
pub fn put_entry(ty: u8, value: &[u8], out: &mut [u8], at: usize) -> usize
    ensures { placing result out.new ≡ placed_if (encoded ty value.now) at out.old }
{
    let n = value.len();
    if n > tlv::MAX_EXTENDED_TLV_LENGTH {
        return at;
    }
    if at > out.len() {
        return at;
    }
    if entry_size(n) > out.len() - at {
        return at;
    }
    let start = store_header(ty, n, out, at);
    copying::put_bytes(value, out, start)
}

// One entry at the start of out. Refusals: 13, 11.
pub fn write_entry(ty: u8, value: &[u8], out: &mut [u8]) -> Result<usize, Refusal>
    ensures { output (answer_of result) out.new ≡ emit (encoded ty value.now) out.old }
{
    if value.len() > tlv::MAX_EXTENDED_TLV_LENGTH {
        return refusal::refuse(Fault::ValueTooLong, 0);
    }
    if entry_size(value.len()) > out.len() {
        return refusal::refuse(Fault::NoRoom, 0);
    }
    Ok(put_entry(ty, value, out, 0))
}
