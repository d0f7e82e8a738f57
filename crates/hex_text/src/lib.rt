// Base 16 (RFC 4648, section 8): bytes to hex text. Hex text to bytes is in `base16`.
#![tactic(auto)]

ghost use Rattle.std.specs.Prelude.{◌≡◌, ◌*◌, ◌≤◌, ◌<◌, length};
ghost use Rattle.refusal.specs.Answer.{given};
ghost use Rattle.refusal.specs.Output.{output, emit, put};
ghost use Rattle.refusal.specs.Results.{answer_of};
ghost use Rattle.hex_text.specs.HexText.{digit, hex_text};

use refusal::{Fault, Refusal};

// The character of a value below 16.
#[tactic(auto, unfolding(crate::specs::HexText::digit))]
fn digit_of(v: u8) -> u8
    requires { v < 16 }
    ensures { result ≡ digit v }
{
    if v < 10 { b'0' + v } else { b'a' - 10 + v }
}

// The text of bytes, two digits to a byte, at the start of out.
fn put_text(bytes: &[u8], out: &mut [u8])
    requires { 2 * length bytes.now ≤ length out.old }
    ensures { out.new ≡ put out.old 0 (hex_text bytes.now) }
{
    for (i, b) in bytes.iter().enumerate() {
        out[2 * i] = digit_of(b / 16);
        out[2 * i + 1] = digit_of(b % 16);
    }
}

// The hex text of bytes, in lower case, at the start of out. Refusal: 11.
pub fn encode(bytes: &[u8], out: &mut [u8]) -> Result<usize, Refusal>
    ensures { output (answer_of result) out.new ≡ emit (given (hex_text bytes.now)) out.old }
{
    if bytes.len() > out.len() / 2 {
        return refusal::refuse(Fault::NoRoom, 0);
    }
    put_text(bytes, out);
    Ok(2 * bytes.len())
}
