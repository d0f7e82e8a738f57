// The nested listing of a payload: its entries, the TLVs of its Network Data, and the inner TLVs of their prefixes; and what the program `nested` prints.
#![tactic(auto)]

ghost use Rattle.std.specs.Prelude.{◌≡◌, [], ◌∷◌, ◌≤◌};
ghost use Rattle.refusal.specs.Answer.{given};
ghost use Rattle.refusal.specs.Output.{output, emit, placing};
ghost use Rattle.refusal.specs.Results.{answer_of};
ghost use Rattle.text_writing.specs.Laid.{laid};
ghost use Rattle.nested_listing.specs.Tree.{indent, item_line, cut_line};
ghost use Rattle.nested_listing.specs.Nested.{nested};
ghost use Rattle.nested_listing.specs.Report.{nested_hex, nested_report, nested_report_bytes};
ghost use Rattle.nested_listing.specs.Levels.{item_at, held_of, held_by, Opens, list_text, item_text};

use network_framing::SubTlv;
use refusal::{Fault, Refusal};
use tlv::Frame;

// The allowed nesting: entries, TLVs of Network Data, inner TLVs of a prefix.
const LEVELS: usize = 3;

// What the program `nested` prints is never longer than this.
pub const REPORT_BYTES: usize = 7 * refusal::MAX_BYTES;

// The public constant, held to its number.
fn constants() -> [usize; 1]
    ensures { result ≡ nested_report_bytes ∷ [] }
{
    [REPORT_BYTES]
}

// The list that an item holds: from a place of its value on, or none that can be framed, or none at all.
#[derive(Clone, Copy)]
enum Held {
    List(usize),
    Cut,
    Nothing,
}

// Two spaces for each level below the first; the place after them.
fn put_indent(level: usize, out: &mut [u8], at: usize) -> usize
    requires { level ≤ 2 }
    ensures { placing result out.new ≡ laid at out.old (indent level) }
{
    let n = 2 * level;
    let blanks = [b' '; 4];
    text_writing::put_text(&blanks[0..n], out, at)
}

// The line of an item into out from at on; the place after it.
fn put_item_line(level: usize, ty: u8, len: usize, out: &mut [u8], at: usize) -> usize
    requires { level ≤ 2 }
    ensures { placing result out.new ≡ laid at out.old (item_line level ty len) }
{
    let first = put_indent(level, out, at);
    listing::put_line(ty as usize, len, out, first)
}

// The line of a list that cannot be framed.
fn put_cut_line(level: usize, out: &mut [u8], at: usize) -> usize
    requires { level ≤ 2 }
    ensures { placing result out.new ≡ laid at out.old (cut_line level) }
{
    let word = put_indent(level, out, at);
    text_writing::put_text(b"cut\n", out, word)
}

// ---- What stands in a list, by the nesting that is still allowed, its own level counted.

// What stands at a place of a list.
fn item_at(nesting: usize, s: &[u8], at: usize) -> Frame
    ensures { result ≡ item_at nesting s.now at }
{
    if nesting == LEVELS {
        let entry = tlv::frame_at(s, at);
        let Frame::Cut = entry else {
            return entry;
        };
        return Frame::End; // an entry that is cut short: `count_entries` has refused it
    }
    match network_framing::sub_at(s, at) {
        SubTlv::Item { ty, start, len } => Frame::Entry { ty, start, len },
        SubTlv::Cut => Frame::Cut,
        SubTlv::End => Frame::End,
    }
}

// The list that an item holds: Network Data is type 7, a prefix in it type 1.
fn holds(nesting: usize, ty: u8, value: &[u8]) -> Held
    ensures { (held_by nesting value.now result ≡ held_of nesting ty value.now) × Opens nesting value.now result }
{
    if nesting == LEVELS {
        if ty == 7 {
            return Held::List(0);
        }
        return Held::Nothing;
    }
    // The level of Network Data.
    if nesting == 2 {
        if ty == 1 {
            return match network_framing::head_at(value, 0, value.len()) {
                Some(at) => Held::List(at),
                None => Held::Cut,
            };
        }
    }
    Held::Nothing
}

// ---- The list printer and the item printer.

// The lines of the list that stands in s into out from at on; the place after them.
#[cycle(put_item_put_list)]
fn put_list(nesting: usize, s: &[u8], out: &mut [u8], at: usize) -> usize
    requires { (1 ≤ nesting) × (nesting ≤ 3) }
    ensures { placing result out.new ≡ laid at out.old (list_text nesting s.now) }
{
    let mut next = at;
    let mut pos: usize = 0;
    loop {
        match item_at(nesting, s, pos) {
            Frame::Entry { ty, start, len } => {
                let end = start + len;
                next = put_item(nesting, ty, &s[start..end], out, next);
                pos = end;
            }
            Frame::Cut => {
                return put_cut_line(LEVELS - nesting, out, next);
            }
            Frame::End => {
                return next;
            }
        }
    }
}

// The line of an item, and the lines of the list that it holds, into out from at on; the place after them.
#[cycle(put_item_put_list)]
fn put_item(nesting: usize, ty: u8, value: &[u8], out: &mut [u8], at: usize) -> usize
    requires { (1 ≤ nesting) × (nesting ≤ 3) }
    ensures { placing result out.new ≡ laid at out.old (item_text nesting ty value.now) }
{
    let next = put_item_line(LEVELS - nesting, ty, value.len(), out, at);
    match holds(nesting, ty, value) {
        Held::List(start) => put_list(nesting - 1, &value[start..], out, next),
        Held::Cut => put_cut_line(LEVELS - nesting + 1, out, next),
        Held::Nothing => next,
    }
}

// The nested listing of a payload, at the start of out. Refusals: 1, 2, 3, 11.
#[tactic(auto, using(crate::proofs::Turns::nested_stops))]
pub fn list_nested(s: &[u8], out: &mut [u8]) -> Result<usize, Refusal>
    ensures { output (answer_of result) out.new ≡ emit (nested s.now) out.old }
{
    tlv::count_entries(s, 0)?;
    let mut no_room = [0u8; 0];
    let need = put_list(LEVELS, s, &mut no_room, 0);
    if need > out.len() {
        return refusal::refuse(Fault::NoRoom, 0);
    }
    put_list(LEVELS, s, out, 0);
    Ok(need)
}

// The nested listing of a payload in hex text, at the start of out. Refusals: 1, 7, 8, 2, 3, 11.
#[tactic(auto, using(refusal::proofs::Papers::passes, listing::proofs::Hexes::decoded_within, listing::proofs::Hexes::front, listing::proofs::Hexes::length_both), unfolding(refusal::specs::Output::emit, listing::specs::Listing::hex_by))]
pub fn list_nested_hex(text: &[u8], out: &mut [u8]) -> Result<usize, Refusal>
    ensures { output (answer_of result) out.new ≡ emit (nested_hex text.now) out.old }
{
    let mut bytes = [0u8; refusal::MAX_BYTES];
    let n = base16::decode(text, &mut bytes)?;
    list_nested(&bytes[0..n], out)
}

// What the program `nested` prints for its standard input, at the start of out: the listing, or the refusal as a line. Refusal: 11.
pub fn report_text(input: &[u8], out: &mut [u8]) -> Result<usize, Refusal>
    ensures { output (answer_of result) out.new ≡ emit (given (nested_report input.now)) out.old }
{
    let end = listing::line_end(input);
    let written = list_nested_hex(&input[0..end], out);
    listing::tell(written, out)
}
