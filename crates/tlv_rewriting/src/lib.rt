// Entries of a set written afresh (tlv.rs): all of it or all but a type, and a set with one value replaced or added.
#![tactic(auto)]

ghost use Rattle.std.specs.Prelude.{◌≡◌, ◌*◌, ◌≤◌, length};
ghost use Rattle.refusal.specs.Sizes.{most_bytes};
ghost use Rattle.refusal.specs.Output.{output, emit, put};
ghost use Rattle.refusal.specs.Results.{answer_of};
ghost use Rattle.tlv.specs.Entries.{contents, framing};
ghost use Rattle.tlv_writing.specs.Encode.{encode_all};
ghost use Rattle.tlv_rewriting.specs.Rewrite.{keeps_of, kept, rewritten, with_set, with_pushed};
ghost use Rattle.tlv_rewriting.specs.Loops.{extent_of, with_added};
ghost use Rattle.tlv_rewriting.specs.declared.Choice.TheVariants.{All};

use refusal::{Fault, Refusal};

// Which entries to write.
#[derive(Clone, Copy)]
pub enum Choice {
    All,
    Without(u8),
}

// The bytes that some entries take as they are written, and their number.
#[derive(Clone, Copy)]
struct Extent {
    bytes: usize,
    entries: usize,
}

fn keeps(c: Choice, t: u8) -> bool
    ensures { result ≡ keeps_of c t }
{
    match c {
        Choice::All => true,
        Choice::Without(x) => t != x,
    }
}

// How many bytes the entries that are kept take, and how many they are.
fn kept_extent(s: &[u8], c: Choice) -> Extent
    requires { length s.now ≤ most_bytes }
    ensures { (result ≡ extent_of (kept c (contents (framing s.now).entries))) × (result.bytes ≤ 2 * length s.now) }
{
    let mut bytes = 0;
    let mut entries = 0;
    for entry in tlv::entries(s) {
        if keeps(c, entry.ty) {
            bytes += tlv_writing::entry_size(entry.value.len());
            entries += 1;
        }
    }
    Extent { bytes, entries }
}

// The entries that are kept, at the start of out.
fn put_kept(s: &[u8], c: Choice, out: &mut [u8])
    requires { (length s.now ≤ most_bytes) × (length (encode_all (kept c (contents (framing s.now).entries))) ≤ length out.old) }
    ensures { out.new ≡ put out.old 0 (encode_all (kept c (contents (framing s.now).entries))) }
{
    let mut to = 0;
    for entry in tlv::entries(s) {
        if keeps(c, entry.ty) {
            to = tlv_writing::put_entry(entry.ty, entry.value, out, to);
        }
    }
}

// The entries of s that are kept, written afresh with the shortest headers at the start of out. Refusals: 1, 2, 3, 11.
pub fn write_kept(s: &[u8], c: Choice, out: &mut [u8]) -> Result<usize, Refusal>
    ensures { output (answer_of result) out.new ≡ emit (rewritten c s.now) out.old }
{
    tlv::count_entries(s, 0)?;
    let extent = kept_extent(s, c);
    let need = extent.bytes;
    if need > out.len() {
        return refusal::refuse(Fault::NoRoom, 0);
    }
    put_kept(s, c, out);
    Ok(need)
}

// All entries of s, written afresh with the shortest headers at the start of out. Refusals: 1, 2, 3, 11.
pub fn rewrite(s: &[u8], out: &mut [u8]) -> Result<usize, Refusal>
    ensures { output (answer_of result) out.new ≡ emit (rewritten All s.now) out.old }
{
    write_kept(s, Choice::All, out)
}

// The entries of s that are kept and one more at the end, at the start of out.
fn put_last(
    s: &[u8],
    choice: Choice,
    ty: u8,
    value: &[u8],
    out: &mut [u8],
) -> Result<usize, Refusal>
    ensures { output (answer_of result) out.new ≡ emit (with_added choice ty value.now s.now) out.old }
{
    tlv::count_entries(s, 0)?;
    if value.len() > tlv::MAX_EXTENDED_TLV_LENGTH {
        return refusal::refuse(Fault::ValueTooLong, 0);
    }
    let rest = kept_extent(s, choice);
    let end = rest.bytes;
    let need = end + tlv_writing::entry_size(value.len());
    if need > refusal::MAX_BYTES {
        return refusal::refuse(Fault::ResultTooLarge, 0);
    }
    if rest.entries >= refusal::MAX_ENTRIES {
        return refusal::refuse(Fault::ResultTooLarge, 0);
    }
    if need > out.len() {
        return refusal::refuse(Fault::NoRoom, 0);
    }
    put_kept(s, choice, out);
    Ok(tlv_writing::put_entry(ty, value, out, end))
}

// The entries of s with every one of a type replaced by one new value at the end, at the start of out. Refusals: 1, 2, 3, 13, 10, 11.
pub fn set_last(s: &[u8], ty: u8, value: &[u8], out: &mut [u8]) -> Result<usize, Refusal>
    ensures { output (answer_of result) out.new ≡ emit (with_set ty value.now s.now) out.old }
{
    put_last(s, Choice::Without(ty), ty, value, out)
}

// The entries of s, none removed, and one more at the end, at the start of out. Refusals: 1, 2, 3, 13, 10, 11.
pub fn push(s: &[u8], ty: u8, value: &[u8], out: &mut [u8]) -> Result<usize, Refusal>
    ensures { output (answer_of result) out.new ≡ emit (with_pushed ty value.now s.now) out.old }
{
    put_last(s, Choice::All, ty, value, out)
}
