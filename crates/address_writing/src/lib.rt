// An IPv6 address as text, by RFC 5952, always in hexadecimal groups. Text to an address is in `address_reading`.
#![tactic(auto)]

ghost use Rattle.std.specs.Prelude.{◌≡◌, [], ◌∷◌, ◌+◌, ◌*◌, ◌≤◌, ◌<◌, eqb, length, drop};
ghost use Rattle.refusal.specs.Answer.{pick, given};
ghost use Rattle.refusal.specs.Output.{output, emit, put, placing, placed};
ghost use Rattle.refusal.specs.Results.{answer_of};
ghost use Rattle.hex_text.specs.HexText.{hex_text};
ghost use Rattle.address_forms.specs.Groups.{groups};
ghost use Rattle.address_forms.specs.Colons.{led};
ghost use Rattle.address_forms.specs.AddressForms.{most_text};
ghost use Rattle.address_forms.specs.AddressText.{group_text, texts, parted, longer_of, run, longest_from, around, address_text};

use address_forms::Run;
use refusal::{Fault, Refusal};

// The fewest groups that "::" stands for.
const FEWEST: usize = 2;

// How many groups in a row are zero, from one group on, where so many are from the next group on.
fn zeros_from(hi: u8, lo: u8, next: usize) -> usize
    requires { next < 65536 }
    ensures { result ≡ pick (eqb (hi * 256 + lo) 0) (next + 1) 0 }
{
    if hi == 0 && lo == 0 { next + 1 } else { 0 }
}

// The longer of two runs, the first where they are equal.
fn longer(first: Run, second: Run) -> Run
    ensures { result ≡ longer_of first second }
{
    if second.len <= first.len {
        first
    } else {
        second
    }
}

// The longest run of zero groups, the first of equal ones.
fn longest_run(bytes: &[u8]) -> Run
    requires { length bytes.now ≡ 16 }
    ensures { result ≡ longest_from 0 (groups bytes.now) }
{
    let mut best = Run { start: 8, len: 0 };
    let mut zeros = 0;
    for k in (0..8).rev() {
        zeros = zeros_from(bytes[2 * k], bytes[2 * k + 1], zeros);
        best = longer(
            Run {
                start: k,
                len: zeros,
            },
            best,
        );
    }
    best
}

// How many of a group's four digits are leading zeros. The last digit is none.
fn leading(hi: u8, lo: u8) -> usize
    ensures { (result ≤ 3) × (drop result (hex_text (hi ∷ lo ∷ [])) ≡ group_text (hi * 256 + lo)) }
{
    if hi >= 16 {
        return 0;
    }
    if hi > 0 {
        return 1;
    }
    if lo >= 16 {
        return 2;
    }
    3
}

// One group into out from at on, and the place after it.
fn put_group(hi: u8, lo: u8, out: &mut [u8], at: usize) -> usize
    ensures { placing result out.new ≡ placed (group_text (hi * 256 + lo)) at out.old }
{
    let pair = [hi, lo];
    let mut four = [0u8; 4];
    let _ = hex_text::encode(&pair, &mut four); // it has room
    let skip = leading(hi, lo);
    copying::put_bytes(&four[skip..4], out, at)
}

// Each group after a colon.
fn put_led(bytes: &[u8], out: &mut [u8], at: usize) -> usize
    requires { at + length (led (texts (groups bytes.now))) ≤ length out.old }
    ensures { (result ≡ at + length (led (texts (groups bytes.now)))) × (out.new ≡ put out.old at (led (texts (groups bytes.now)))) }
{
    let mut next = at;
    let mut rest = bytes;
    while let [hi, lo, tail @ ..] = rest {
        out[next] = b':';
        next = put_group(*hi, *lo, out, next + 1);
        rest = tail;
    }
    next
}

// Groups parted by colons.
fn put_parted(bytes: &[u8], out: &mut [u8], at: usize) -> usize
    requires { at + length (parted (groups bytes.now)) ≤ length out.old }
    ensures { (result ≡ at + length (parted (groups bytes.now))) × (out.new ≡ put out.old at (parted (groups bytes.now))) }
{
    let [hi, lo, tail @ ..] = bytes else {
        return at;
    };
    let next = put_group(*hi, *lo, out, at);
    put_led(tail, out, next)
}

// The groups before a run, "::", and the groups after it, at the start of out.
fn put_around(address: &[u8], start: usize, len: usize, out: &mut [u8]) -> usize
    requires { (2 * start + 2 * len ≤ length address.now) × (length (around (run start len) (groups address.now)) ≤ length out.old) }
    ensures { (result ≡ length (around (run start len) (groups address.now))) × (out.new ≡ put out.old 0 (around (run start len) (groups address.now))) }
{
    let left = 2 * start;
    let right = left + 2 * len;
    let at = put_parted(&address[0..left], out, 0);
    out[at] = b':';
    out[at + 1] = b':';
    put_parted(&address[right..], out, at + 2)
}

// The text of an address, at the start of out.
fn lay_text(address: &[u8], out: &mut [u8]) -> usize
    requires { (length address.now ≡ 16) × (most_text ≤ length out.old) }
    ensures { (result ≡ length (address_text address.now)) × (result ≤ most_text) × (out.new ≡ put out.old 0 (address_text address.now)) }
{
    let run = longest_run(address);
    if run.len < FEWEST {
        put_parted(address, out, 0)
    } else {
        put_around(address, run.start, run.len, out)
    }
}

// The text of an address, at the start of out. Refusal: 11.
pub fn write_address(address: [u8; 16], out: &mut [u8]) -> Result<usize, Refusal>
    ensures { output (answer_of result) out.new ≡ emit (given (address_text address)) out.old }
{
    let mut text = [0u8; address_forms::MAX_TEXT];
    let n = lay_text(&address, &mut text);
    if n > out.len() {
        return refusal::refuse(Fault::NoRoom, 0);
    }
    copying::put_bytes(&text[0..n], out, 0);
    Ok(n)
}
