// An index beside a dataset's bytes: for each of the 256 types how many entries, and where the last begins. It is kept as it is stored.
#![tactic(auto)]

ghost use Rattle.std.specs.Prelude.{◌≡◌, [], ◌∷◌, ◌+◌, ◌≤◌, length, drop, replicate};
ghost use Rattle.refusal.specs.Sizes.{most_bytes};
ghost use Rattle.refusal.specs.Answer.{pick, given, refused};
ghost use Rattle.refusal.specs.Output.{output, emit, put};
ghost use Rattle.refusal.specs.Results.{answer_of, found_of};
ghost use Rattle.wire_bytes.specs.Bytes.{bytes_of};
ghost use Rattle.tlv.specs.Entries.{first};
ghost use Rattle.dataset_index.specs.Index.{index_size, built, loaded};
ghost use Rattle.dataset_index.specs.Query.{two_at, is_framed, spot_in, by_index, value_by_index};
ghost use Rattle.dataset_index.specs.Loops.{Collects, slots_in};

use refusal::{Fault, Refusal};
use tlv::Frame;
use tlv_last::Spot;

// An index: its mark, and for each of the 256 types two numbers of two bytes.
pub const INDEX_BYTES: usize = 1026;

// The public constants, held to their numbers.
fn constants() -> [usize; 1]
    ensures { result ≡ index_size ∷ [] }
{
    [INDEX_BYTES]
}

// For each type how many entries, and the place of the last: both fit, since a dataset has at most `refusal::MAX_BYTES`.
#[derive(Clone, Copy)]
struct Table {
    count: [u16; 256],
    place: [u16; 256],
}

fn no_entries() -> Table
    ensures { (result.count ≡ replicate 256 0) × (result.place ≡ replicate 256 0) }
{
    Table {
        count: [0u16; 256],
        place: [0u16; 256],
    }
}

// One pass over the entries: each is noted and counted, and where they stop short of the end of s, the next one is cut. Refusals: 2, 3.
fn collect(s: &[u8]) -> Result<Table, Refusal>
    requires { length s.now ≤ most_bytes }
    ensures { Collects s.now result }
{
    let mut table = no_entries();
    let mut n: usize = 0;
    let mut over: usize = 0;
    let mut end: usize = 0;
    for entry in tlv::entries(s) {
        let t = entry.ty as usize;
        table.count[t] += 1;
        table.place[t] = entry.place as u16;
        if n == refusal::MAX_ENTRIES {
            over = entry.place;
        }
        n += 1;
        end = entry.start + entry.value.len();
    }
    if end < s.len() {
        return refusal::refuse(Fault::Cut, end);
    }
    tlv::stopped(None, end, n, over, 0)?;
    Ok(table)
}

// A number of two bytes into out from at on; the place after it.
fn put_u16(x: u16, out: &mut [u8], at: usize) -> usize
    requires { at + 2 ≤ length out.old }
    ensures { (result ≡ at + 2) × (out.new ≡ put out.old at (bytes_of 2 x)) }
{
    copying::put_bytes(&wire_bytes::u16_bytes(x), out, at)
}

// The numbers of all types, after the mark.
fn put_slots(x: Table, out: &mut [u8])
    requires { index_size ≤ length out.old }
    ensures { out.new ≡ put out.old 2 (slots_in x.count x.place 0 256) }
{
    for t in 0..256 {
        let middle = put_u16(x.count[t], out, 2 + 4 * t);
        put_u16(x.place[t], out, middle);
    }
}

// The index of a dataset, at the start of out. Refusals: 1, 2, 3, 11.
pub fn build(dataset: &[u8], out: &mut [u8]) -> Result<usize, Refusal>
    ensures { output (answer_of result) out.new ≡ emit (built dataset.now) out.old }
{
    if dataset.len() > refusal::MAX_BYTES {
        return refusal::refuse(Fault::TooLarge, 0);
    }
    let table = collect(dataset)?;
    if out.len() < INDEX_BYTES {
        return refusal::refuse(Fault::NoRoom, 0);
    }
    out[0] = 0x49;
    out[1] = 0x58;
    put_slots(table, out);
    Ok(INDEX_BYTES)
}

// 17, at place 0 of the second input, which is the index.
fn wrong_index<T>() -> Result<T, Refusal>
    ensures { answer_of result ≡ refused 17 0 1 }
{
    Err(Refusal {
        fault: Fault::WrongIndex,
        place: 0,
        input: 1,
    })
}

// Whether a stored index is the one that the dataset gives. Refusals: 1, 2, 3, then 17.
pub fn load(dataset: &[u8], stored: &[u8]) -> Result<(), Refusal>
    ensures { answer_of result ≡ loaded dataset.now stored.now }
{
    let mut fresh = [0u8; INDEX_BYTES];
    build(dataset, &mut fresh)?;
    if check::same(&fresh, stored) {
        return Ok(());
    }
    wrong_index()
}

// Whether an index has its length and its mark.
fn is_framed(index: &[u8]) -> bool
    ensures { result ≡ is_framed index.now }
{
    if index.len() != INDEX_BYTES {
        return false;
    }
    if index[0] != 0x49 {
        return false;
    }
    index[1] == 0x58
}

// The number that two bytes from k on spell.
fn two_at(index: &[u8], k: usize) -> usize
    requires { k + 2 ≤ length index.now }
    ensures { result ≡ two_at index.now k }
{
    usize::from(u16::from_be_bytes([index[k], index[k + 1]]))
}

// The entry that begins at a place, where it has the type; or else 17, of the index that names the place.
fn entry_at(dataset: &[u8], place: usize, ty: u8) -> Result<Option<Spot>, Refusal>
    ensures { found_of result ≡ spot_in ty place (first (drop place dataset.now)) }
{
    match tlv::frame_at(dataset, place) {
        Frame::Entry { ty: t, start, len } => {
            if t == ty {
                return Ok(Some(Spot { place, start, len }));
            }
            wrong_index()
        }
        Frame::Cut => wrong_index(),
        Frame::End => wrong_index(),
    }
}

// Where the entry lies that an index names for a type: of the dataset's own index, the last entry of the type. It walks over no entries, and
// sees only the one that it is led to. Refusals: 1, then 17 where the index has another length or mark, or no entry of the type begins there.
pub fn last_entry(dataset: &[u8], index: &[u8], ty: u8) -> Result<Option<Spot>, Refusal>
    ensures { found_of result ≡ by_index ty dataset.now index.now }
{
    if dataset.len() > refusal::MAX_BYTES {
        return refusal::refuse(Fault::TooLarge, 0); // before the index is looked at
    }
    if is_framed(index) {
        let slot = 2 + 4 * (ty as usize);
        if two_at(index, slot) == 0 {
            return Ok(None);
        }
        return entry_at(dataset, two_at(index, slot + 2), ty);
    }
    wrong_index()
}

// Its value, as a part of the dataset; no bytes where there is none or it is refused (`last_entry` tells which).
pub fn last_value<'a>(dataset: &'a [u8], index: &[u8], ty: u8) -> &'a [u8]
    ensures { result.now ≡ value_by_index ty dataset.now index.now }
{
    match last_entry(dataset, index, ty) {
        Ok(Some(spot)) => &dataset[spot.start..spot.start + spot.len],
        Ok(None) => &dataset[..0],
        Err(_) => &dataset[..0],
    }
}
