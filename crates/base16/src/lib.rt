// Base 16 (RFC 4648, section 8): hex text to bytes. Bytes to hex text is in `hex_text`.
#![tactic(auto)]

ghost use Rattle.std.specs.Prelude.{◌≡◌, true, ◌*◌, ◌≤◌, ◌<◌, length};
ghost use Rattle.refusal.specs.Output.{output, emit, put};
ghost use Rattle.refusal.specs.Results.{answer_of};
ghost use Rattle.base16.specs.Base16.{decoded};
ghost use Rattle.base16.specs.Loops.{is_digit, value_of, all_digits, first_bad, paired};

use refusal::{Fault, Refusal};

fn is_digit(c: u8) -> bool
    ensures { result ≡ is_digit c }
{
    match c {
        b'0'..=b'9' | b'a'..=b'f' | b'A'..=b'F' => true,
        _ => false,
    }
}

// Whether every character is a digit. `&` in place of an early return lets the compiler take many characters at once.
fn all_digits(text: &[u8]) -> bool
    ensures { result ≡ all_digits text.now }
{
    let mut good = true;
    for c in text {
        good = good & is_digit(*c);
    }
    good
}

// The index of the first character that is no digit, or the length where each is one, as in most texts, which want no search.
fn first_bad(text: &[u8]) -> usize
    ensures { result ≡ first_bad 0 text.now }
{
    if all_digits(text) {
        return text.len();
    }
    for (i, c) in text.iter().enumerate() {
        if !is_digit(*c) {
            return i;
        }
    }
    text.len()
}

// The value of a digit. A letter's last four bits, in both cases, are its value less 9.
fn value(c: u8) -> u8
    requires { is_digit c ≡ true }
    ensures { (result ≡ value_of c) × (result < 16) }
{
    if c <= b'9' { c - b'0' } else { c % 16 + 9 }
}

// The bytes of a text of digits, two to a byte, at the start of out.
fn put_bytes(text: &[u8], out: &mut [u8])
    requires { (all_digits text.now ≡ true) × (length text.now ≤ 2 * length out.old) }
    ensures { out.new ≡ put out.old 0 (paired text.now) }
{
    for i in 0..text.len() / 2 {
        out[i] = value(text[2 * i]) * 16 + value(text[2 * i + 1]);
    }
}

// The bytes that hex text stands for, at the start of out. Refusals: 1, 7, 8, 11.
pub fn decode(text: &[u8], out: &mut [u8]) -> Result<usize, Refusal>
    ensures { output (answer_of result) out.new ≡ emit (decoded text.now) out.old }
{
    if text.len() > refusal::MAX_DIGITS {
        return refusal::refuse(Fault::TooLarge, 0);
    }
    let bad = first_bad(text);
    if text.len() % 2 == 1 {
        return refusal::refuse(Fault::OddDigits, 0);
    }
    if bad < text.len() {
        return refusal::refuse(Fault::NotHex, bad);
    }
    let n = text.len() / 2;
    if n > out.len() {
        return refusal::refuse(Fault::NoRoom, 0);
    }
    put_bytes(text, out);
    Ok(n)
}
