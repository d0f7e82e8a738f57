// Is it UTF-8 (RFC 3629)? The class of a character's first byte, looked up in a table, says which bytes may follow.
#![tactic(auto)]

mod classes;

ghost use Rattle.std.specs.Prelude.{◌≡◌, ◌<◌, length};
ghost use Rattle.utf8.specs.Utf8.{octets, class_of};
ghost use Rattle.utf8.specs.Chars.{all_one, within_at, two_at, three_at, four_at, FirstAt, CharAt};

use classes::CLASSES;

// Whether s is UTF-8.
pub fn is_utf8(s: &[u8]) -> bool
    ensures { result ≡ octets s.now }
{
    if is_ascii(s) {
        return true;
    }
    has_chars(s)
}

// The class of b as the first byte of a character.
pub fn class(b: u8) -> u8
    ensures { result ≡ class_of b }
{
    CLASSES[b as usize]
}

// Whether every byte is ASCII, as in most names, which want no table. `&` in place of an early return lets the compiler take many bytes at once.
fn is_ascii(s: &[u8]) -> bool
    ensures { result ≡ all_one s.now }
{
    let mut good = true;
    for b in s {
        good = good & (*b <= 0x7F);
    }
    good
}

// Whether s is UTF-8, character by character. The table is made once, and looked up once for each character.
fn has_chars(s: &[u8]) -> bool
    ensures { result ≡ octets s.now }
{
    let table = CLASSES;
    let mut at = 0;
    while at < s.len() {
        let n = char_len_at(s, at, table[s[at] as usize]);
        if n == 0 {
            return false;
        }
        at += n;
    }
    true
}

// How many bytes the character at the place takes, where the byte there has class c; 0 where there is no character.
fn char_len_at(s: &[u8], at: usize, c: u8) -> usize
    requires { FirstAt s.now at c }
    ensures { CharAt s.now at result }
{
    match c {
        1 => 1,
        2 => two_at(s, at),
        3 => three_at(s, at, 0xA0, 0xBF),
        4 => three_at(s, at, 0x80, 0xBF),
        5 => three_at(s, at, 0x80, 0x9F),
        6 => four_at(s, at, 0x90, 0xBF),
        7 => four_at(s, at, 0x80, 0xBF),
        8 => four_at(s, at, 0x80, 0x8F),
        _ => 0,
    }
}

// 2 where one more byte of a character follows the place, else 0.
#[tactic(auto, unfolding(crate::specs::Chars::two_at))]
fn two_at(s: &[u8], at: usize) -> usize
    requires { at < length s.now }
    ensures { result ≡ two_at s.now at }
{
    if within_at(s, at + 1, 0x80, 0xBF) {
        2
    } else {
        0
    }
}

// 3 where two more bytes follow it, the second of the character from low to high, else 0.
#[tactic(auto, unfolding(crate::specs::Chars::three_at))]
fn three_at(s: &[u8], at: usize, low: u8, high: u8) -> usize
    requires { at < length s.now }
    ensures { result ≡ three_at low high s.now at }
{
    if within_at(s, at + 1, low, high) && within_at(s, at + 2, 0x80, 0xBF) {
        3
    } else {
        0
    }
}

// 4 where three more bytes follow it, likewise, else 0.
#[tactic(auto, unfolding(crate::specs::Chars::four_at))]
fn four_at(s: &[u8], at: usize, low: u8, high: u8) -> usize
    requires { at < length s.now }
    ensures { result ≡ four_at low high s.now at }
{
    if within_at(s, at + 1, low, high)
        && within_at(s, at + 2, 0x80, 0xBF)
        && within_at(s, at + 3, 0x80, 0xBF)
    {
        4
    } else {
        0
    }
}

// Whether a byte from low to high stands at the place.
#[tactic(auto, unfolding(crate::specs::Chars::within_at))]
fn within_at(s: &[u8], at: usize, low: u8, high: u8) -> bool
    ensures { result ≡ within_at low high s.now at }
{
    at < s.len() && low <= s[at] && s[at] <= high
}
