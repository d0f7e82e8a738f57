// A dataset to and from hex text (dataset.rs).
#![tactic(auto)]

ghost use Rattle.std.specs.Prelude.{◌≡◌};
ghost use Rattle.refusal.specs.Output.{output, emit};
ghost use Rattle.refusal.specs.Results.{answer_of};
ghost use Rattle.dataset_hex.specs.Hex.{hex_of, well_framed, from_hex};

use refusal::{Fault, Refusal};

// Written afresh, as hex text in lower case: 1, 2, 3, 11.
#[tactic(auto, using(refusal::proofs::Papers::passes, crate::proofs::Hexes::rewritten_within, crate::proofs::Hexes::front, crate::proofs::Hexes::length_both), unfolding(refusal::specs::Output::emit, crate::specs::Hex::hex_of))]
pub fn to_hex(s: &[u8], out: &mut [u8]) -> Result<usize, Refusal>
    ensures { output (answer_of result) out.new ≡ emit (hex_of s.now) out.old }
{
    let mut bytes = [0u8; refusal::MAX_BYTES];
    let n = tlv_rewriting::rewrite(s, &mut bytes)?;
    hex_text::encode(&bytes[0..n], out)
}

// The bytes of a dataset in hex text, as decoded: 1, 7, 8, 2, 3, 11.
pub fn from_hex(text: &[u8], out: &mut [u8]) -> Result<usize, Refusal>
    ensures { output (answer_of result) out.new ≡ emit (from_hex text.now) out.old }
{
    let mut bytes = [0u8; refusal::MAX_BYTES];
    let n = base16::decode(text, &mut bytes)?;
    framed_copy(&bytes[0..n], out)
}

// A dataset's bytes as they are, at the start of out, where they are well-formed.
fn framed_copy(s: &[u8], out: &mut [u8]) -> Result<usize, Refusal>
    ensures { output (answer_of result) out.new ≡ emit (well_framed s.now) out.old }
{
    tlv::count_entries(s, 0)?;
    if s.len() > out.len() {
        return refusal::refuse(Fault::NoRoom, 0);
    }
    Ok(copying::put_bytes(s, out, 0))
}
