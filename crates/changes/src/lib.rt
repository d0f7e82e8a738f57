// Change lists: operations on a dataset, run one after the other and folded to one shortest list.
#![tactic(auto)]

ghost use Rattle.std.specs.Prelude.{◌≡◌, ◌+◌, ◌*◌, ◌≤◌, length};
ghost use Rattle.refusal.specs.Sizes.{most_bytes, most_value};
ghost use Rattle.refusal.specs.Output.{output, emit, put};
ghost use Rattle.refusal.specs.Results.{answer_of};
ghost use Rattle.tlv.specs.Entries.{content, contents, framing};
ghost use Rattle.tlv_writing.specs.Encode.{encode_all};
ghost use Rattle.change_lists.specs.Operations.{encode_ops};
ghost use Rattle.change_folds.specs.Run.{ran};
ghost use Rattle.change_folds.specs.Fold.{folded, folded_two};
ghost use Rattle.changes.specs.Loops.{ops_after, Marked, spared, chosen, gone_below, encode_set, encode_sets, extent_of, folded_extent, room_for};

use change_lists::Operation;
use refusal::{Fault, Refusal};

// The bytes that some entries take as they are written, and their number.
#[derive(Clone, Copy)]
struct Extent {
    bytes: usize,
    entries: usize,
}

// What each type's last operation leaves at the type: 0 for none, 1 for a removal, for a set 2 and its place. The list stands after
// base bytes of another, whose operations have left table.
fn mark(table: [usize; 256], list: &[u8], base: usize) -> [usize; 256]
    requires { (length table ≡ 256) × (length list.now ≤ most_bytes) × (base ≤ most_bytes) }
    ensures { Marked result table (ops_after base list.now) }
{
    let mut marks = table;
    for operation in change_lists::operations(list) {
        match operation {
            Operation::Set {
                place,
                ty,
                value: _,
            } => marks[ty as usize] = base + place + 2,
            Operation::Remove { place: _, ty } => marks[ty as usize] = 1,
        }
    }
    marks
}

// How many bytes the entries take whose types have no mark, and how many they are.
fn spared_extent(s: &[u8], marks: [usize; 256]) -> Extent
    requires { length s.now ≤ most_bytes }
    ensures { (result ≡ extent_of (spared marks (contents (framing s.now).entries))) × (result.bytes ≤ 2 * most_bytes) × (result.entries ≤ most_bytes) }
{
    let mut bytes = 0;
    let mut entries = 0;
    for entry in tlv::entries(s) {
        if marks[entry.ty as usize] == 0 {
            bytes += tlv_writing::entry_size(entry.value.len());
            entries += 1;
        }
    }
    Extent { bytes, entries }
}

// How many bytes the entries of the sets take whose own marks stand at their types, and how many they are.
fn chosen_extent(list: &[u8], marks: [usize; 256], base: usize) -> Extent
    requires { (length list.now ≤ most_bytes) × (base ≤ most_bytes) }
    ensures { (result ≡ extent_of (chosen marks (ops_after base list.now))) × (result.bytes ≤ most_bytes) × (result.entries ≤ most_bytes) }
{
    let mut bytes = 0;
    let mut entries = 0;
    for operation in change_lists::operations(list) {
        if let Operation::Set { place, ty, value } = operation {
            if marks[ty as usize] == base + place + 2 {
                bytes += tlv_writing::entry_size(value.len());
                entries += 1;
            }
        }
    }
    Extent { bytes, entries }
}

// An entry into out from at on, after the mark of a set where that is asked for; the place after it.
fn put_set(ty: u8, value: &[u8], marked: bool, out: &mut [u8], at: usize) -> usize
    requires { (length value.now ≤ most_value) × (at + length (encode_set marked (content ty value.now)) ≤ length out.old) }
    ensures { (result ≡ at + length (encode_set marked (content ty value.now))) × (out.new ≡ put out.old at (encode_set marked (content ty value.now))) }
{
    if marked {
        out[at] = 0x53;
        out[at + 1] = 0x45;
        return tlv_writing::put_entry(ty, value, out, at + 2);
    }
    tlv_writing::put_entry(ty, value, out, at)
}

// The entries whose types have no mark, at the start of out; the place after them.
fn put_spared(s: &[u8], marks: [usize; 256], out: &mut [u8]) -> usize
    requires { (length s.now ≤ most_bytes) × (length (encode_all (spared marks (contents (framing s.now).entries))) ≤ length out.old) }
    ensures { (result ≡ length (encode_all (spared marks (contents (framing s.now).entries)))) × (out.new ≡ put out.old 0 (encode_all (spared marks (contents (framing s.now).entries)))) }
{
    let mut to = 0;
    for entry in tlv::entries(s) {
        if marks[entry.ty as usize] == 0 {
            to = tlv_writing::put_entry(entry.ty, entry.value, out, to);
        }
    }
    to
}

// The entries of the sets whose own marks stand at their types, from a place of out on; the place after them.
fn put_chosen(
    list: &[u8],
    marks: [usize; 256],
    base: usize,
    marked: bool,
    out: &mut [u8],
    from: usize,
) -> usize
    requires { (length list.now ≤ most_bytes) × (base ≤ most_bytes) × (from + length (encode_sets marked (chosen marks (ops_after base list.now))) ≤ length out.old) }
    ensures { (result ≡ from + length (encode_sets marked (chosen marks (ops_after base list.now)))) × (out.new ≡ put out.old from (encode_sets marked (chosen marks (ops_after base list.now)))) }
{
    let mut to = from;
    for operation in change_lists::operations(list) {
        if let Operation::Set { place, ty, value } = operation {
            if marks[ty as usize] == base + place + 2 {
                to = put_set(ty, value, marked, out, to);
            }
        }
    }
    to
}

// How many types have a removal for their last operation.
fn count_removals(marks: [usize; 256]) -> usize
    ensures { (result ≡ length (gone_below 256 marks)) × (result ≤ 256) }
{
    let mut n = 0;
    for t in 0..256 {
        if marks[t] == 1 {
            n += 1;
        }
    }
    n
}

// A removal of each of these types, ascending, at the start of out; the place after them.
fn put_removals(marks: [usize; 256], out: &mut [u8]) -> usize
    requires { 3 * length (gone_below 256 marks) ≤ length out.old }
    ensures { (result ≡ length (encode_ops (gone_below 256 marks))) × (out.new ≡ put out.old 0 (encode_ops (gone_below 256 marks))) }
{
    let mut to = 0;
    for t in 0..256 {
        if marks[t] == 1 {
            out[to] = 0x52;
            out[to + 1] = 0x4D;
            out[to + 2] = t as u8;
            to += 3;
        }
    }
    to
}

// Whether a result of so many bytes and entries or operations is within the sizes, and then whether it has room: 10, 11.
#[tactic(auto, unfolding(crate::specs::Loops::room_for))]
fn room_for(bytes: usize, entries: usize, room: usize) -> Result<usize, Refusal>
    ensures { answer_of result ≡ room_for bytes entries room }
{
    let over = (bytes > refusal::MAX_BYTES) | (entries > refusal::MAX_ENTRIES);
    let short = bytes > room;
    if over {
        return refusal::refuse(Fault::ResultTooLarge, 0);
    }
    if short {
        return refusal::refuse(Fault::NoRoom, 0);
    }
    Ok(bytes)
}

// The dataset's entries after the operations of the list, sizes tested once, at the end. Refusals: 1, 2, 3 of the dataset, 1, 9, 3 of
// the list, 10, 11.
#[tactic(auto, using(refusal::proofs::Papers::passes, crate::proofs::Results::run_refused_emits, crate::proofs::Results::run_list_refused_emits))]
pub fn run(dataset: &[u8], list: &[u8], out: &mut [u8]) -> Result<usize, Refusal>
    ensures { output (answer_of result) out.new ≡ emit (ran dataset.now list.now) out.old }
{
    tlv::count_entries(dataset, 0)?;
    change_lists::count_operations(list, 1)?;
    let marks = mark([0usize; 256], list, 0);
    let spared = spared_extent(dataset, marks);
    let chosen = chosen_extent(list, marks, 0);
    let need = spared.bytes + chosen.bytes;
    let number = spared.entries + chosen.entries;
    room_for(need, number, out.len())?;
    let to = put_spared(dataset, marks, out);
    Ok(put_chosen(list, marks, 0, false, out, to))
}

// The bytes that the folded list takes, and its number of operations.
fn folded_extent(first: &[u8], second: &[u8], marks: [usize; 256]) -> Extent
    requires { (length first.now ≤ most_bytes) × (length second.now ≤ most_bytes) }
    ensures { result ≡ folded_extent marks first.now second.now }
{
    let removals = count_removals(marks);
    let a = chosen_extent(first, marks, 0);
    let b = chosen_extent(second, marks, first.len());
    let sets = a.entries + b.entries;
    Extent {
        bytes: 3 * removals + (2 * sets + (a.bytes + b.bytes)),
        entries: removals + sets,
    }
}

// One list that does what the first does and then the second, each type's last operation only. Refusals: 1, 9, 3 of the first, then
// of the second, 10, 11.
pub fn fold_two(first: &[u8], second: &[u8], out: &mut [u8]) -> Result<usize, Refusal>
    ensures { output (answer_of result) out.new ≡ emit (folded_two first.now second.now) out.old }
{
    change_lists::count_operations(first, 0)?;
    change_lists::count_operations(second, 1)?;
    let base = first.len();
    let marks = mark(mark([0usize; 256], first, 0), second, base);
    let extent = folded_extent(first, second, marks);
    room_for(extent.bytes, extent.entries, out.len())?;
    let sets = put_removals(marks, out);
    let more = put_chosen(first, marks, 0, true, out, sets);
    Ok(put_chosen(second, marks, base, true, out, more))
}

// The list with each type's last operation only: removals first, types ascending, then sets in their order. Refusals: 1, 9, 3, 11.
pub fn fold(list: &[u8], out: &mut [u8]) -> Result<usize, Refusal>
    ensures { output (answer_of result) out.new ≡ emit (folded list.now) out.old }
{
    fold_two(list, &list[0..0], out)
}
