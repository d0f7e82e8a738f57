// Text to an IPv6 address, by forms 1 and 2 of RFC 4291, section 2.2. An address to text is in `address_writing`.
#![tactic(auto)]

ghost use Rattle.std.specs.Prelude.{◌≡◌, [], ◌∷◌, ◌+◌, ◌/◌, ◌%◌, ◌≤◌, ◌<◌, length, replicate};
ghost use Rattle.refusal.specs.Output.{output, emit, put, placing};
ghost use Rattle.refusal.specs.Results.{answer_of};
ghost use Rattle.address_forms.specs.AddressRead.{fields_of, gap_of, both_sides, text_address};
ghost use Rattle.address_reading.specs.Loops.{nibble, added, ended, Taken, of_eight};

use refusal::{Fault, Refusal};

// The count where a text is not groups, or is more of them than an address has.
const NO_GROUPS: usize = 9;

// The value of a hex digit, in both cases; 16 for any other character.
fn digit_value(c: u8) -> u8
    ensures { result ≡ nibble c }
{
    match c {
        b'0'..=b'9' => c - b'0',
        b'a'..=b'f' => c - (b'a' - 10),
        b'A'..=b'F' => c - (b'A' - 10),
        _ => 16,
    }
}

// The digit that a character adds to a group of n digits; 16 where it adds none.
fn next_digit(c: u8, n: usize) -> u8
    requires { n ≤ 4 }
    ensures { result ≡ added n c }
{
    if n == 4 {
        return 16;
    }
    digit_value(c)
}

// The bytes of a group at a place.
fn put_group(v: u16, out: &mut [u8], at: usize)
    requires { at + 2 ≤ length out.old }
    ensures { out.new ≡ put out.old at (v / 256 ∷ v % 256 ∷ []) }
{
    out[at] = (v / 256) as u8;
    out[at + 1] = (v % 256) as u8;
}

// The end of a group of n digits, after count groups in out: its bytes after theirs, and how many they are with it. NO_GROUPS where it has no
// digit, or is a ninth.
fn end_group(v: u16, n: usize, out: &mut [u8], count: usize) -> usize
    requires { (n ≤ 4) × (count ≤ 8) × (16 ≤ length out.old) }
    ensures { placing result out.new ≡ ended v n count out.old }
{
    if n == 0 {
        return NO_GROUPS;
    }
    if count > 7 {
        return NO_GROUPS;
    }
    put_group(v, out, 2 * count);
    count + 1
}

// Of a text that is groups of one to four digits, parted by single colons: their bytes at the start of out, and how many groups; else NO_GROUPS.
fn take_parted(text: &[u8], out: &mut [u8]) -> usize
    requires { (0 < length text.now) × (16 ≤ length out.old) }
    ensures { Taken (fields_of text.now) out.old out.new result }
{
    let mut count = 0;
    let mut n: usize = 0;
    let mut v: u16 = 0;
    for &c in text {
        if c == b':' {
            count = end_group(v, n, out, count);
            if count == NO_GROUPS {
                return NO_GROUPS;
            }
            n = 0;
            v = 0;
        } else {
            let d = next_digit(c, n);
            if d == 16 {
                return NO_GROUPS;
            }
            v = v * 16 + d as u16;
            n += 1;
        }
    }
    end_group(v, n, out, count)
}

// The same for a text that may be empty.
fn take_groups(text: &[u8], out: &mut [u8]) -> usize
    requires { 16 ≤ length out.old }
    ensures { Taken (fields_of text.now) out.old out.new result }
{
    if text.is_empty() {
        0
    } else {
        take_parted(text, out)
    }
}

// The index of the first "::", or the length where there is none.
fn find_gap(text: &[u8]) -> usize
    ensures { result ≡ gap_of text.now }
{
    for i in 1..text.len() {
        if (text[i - 1] == b':') & (text[i] == b':') {
            return i - 1;
        }
    }
    text.len()
}

// The bytes of what stands left of "::", zeros, and the bytes of what stands right of it, in out; 8, or NO_GROUPS.
fn take_around(left: &[u8], right: &[u8], out: &mut [u8]) -> usize
    requires { out.old ≡ replicate 16 0 }
    ensures { both_sides left.now right.now ≡ of_eight result out.new }
{
    let mut tail = [0u8; 16];
    let l = take_groups(left, out);
    if l > 7 {
        return NO_GROUPS;
    }
    let r = take_groups(right, &mut tail);
    if r > 7 - l {
        return NO_GROUPS;
    }
    copying::put_bytes(&tail[0..2 * r], out, 16 - 2 * r);
    8
}

// The bytes of the groups that a text stands for, in out; how many groups, 8 where it is an address. A text longer than any address is not read.
fn take_text(text: &[u8], out: &mut [u8]) -> usize
    requires { out.old ≡ replicate 16 0 }
    ensures { text_address text.now ≡ of_eight result out.new }
{
    if text.len() > address_forms::MAX_TEXT {
        return NO_GROUPS;
    }
    let gap = find_gap(text);
    if gap == text.len() {
        take_groups(text, out)
    } else {
        take_around(&text[0..gap], &text[gap + 2..], out)
    }
}

// The 16 bytes that a text stands for, at the start of out. Refusals: 16, 11.
pub fn read_address(text: &[u8], out: &mut [u8]) -> Result<usize, Refusal>
    ensures { output (answer_of result) out.new ≡ emit (text_address text.now) out.old }
{
    let mut bytes = [0u8; 16];
    let count = take_text(text, &mut bytes);
    if count != 8 {
        return refusal::refuse(Fault::NotAddress, 0);
    }
    if out.len() < 16 {
        return refusal::refuse(Fault::NoRoom, 0);
    }
    copying::put_bytes(&bytes, out, 0);
    Ok(16)
}
