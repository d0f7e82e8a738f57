// The edits of a dataset that has an index beside it: the edited dataset and its index, both into lent outputs, or neither.
#![tactic(auto)]

ghost use Rattle.std.specs.Prelude.{◌≡◌};
ghost use Rattle.refusal.specs.Results.{answer_of};
ghost use Rattle.tlv_rewriting.specs.Rewrite.{rewritten, with_set};
ghost use Rattle.tlv_rewriting.specs.declared.Choice.TheVariants.{Without};
ghost use Rattle.index_edits.specs.Edits.{by_stored, outputs, emit_both};
ghost use Rattle.index_edits.specs.Loops.{no_room_for, Lies, indexed};

use dataset_index::INDEX_BYTES;
use refusal::{Fault, Refusal};

// What is said where the index has no room: an edit's own refusals come first.
fn no_room_for(tried: Result<usize, Refusal>) -> Result<usize, Refusal>
    ensures { answer_of result ≡ no_room_for (answer_of tried) }
{
    tried?;
    refusal::refuse(Fault::NoRoom, 0)
}

// The index of what an edit has written to out, at the start of index, which has room. What the edit answered.
fn put_index(
    written: Result<usize, Refusal>,
    out: &[u8],
    index: &mut [u8],
) -> Result<usize, Refusal>
    requires { Lies (answer_of written) out.now }
    ensures { (answer_of result ≡ answer_of written) × (index.new ≡ indexed (answer_of written) out.now index.old) }
{
    let n = written?;
    let _ = dataset_index::build(&out[..n], index); // it has room, and the edit's result is framed
    Ok(n)
}

// The dataset with a type set, at the start of out, and its index, at the start of index. Refusals: 1, 2, 3, 17, 13, 10, 11.
pub fn set_raw(
    dataset: &[u8],
    stored: &[u8],
    ty: u8,
    value: &[u8],
    out: &mut [u8],
    index: &mut [u8],
) -> Result<usize, Refusal>
    ensures { outputs (answer_of result) out.new index.new ≡ emit_both (by_stored dataset.now stored.now (with_set ty value.now dataset.now)) out.old index.old }
{
    dataset_index::load(dataset, stored)?;
    if index.len() < INDEX_BYTES {
        // nothing may be written to out, and 13 and 10 come before 11
        let mut scratch = [0u8; 1];
        return no_room_for(dataset_edits::set_raw(dataset, ty, value, &mut scratch));
    }
    let written = dataset_edits::set_raw(dataset, ty, value, out);
    put_index(written, out, index)
}

// The same with every entry of a type removed. Refusals: 1, 2, 3, 17, 11.
pub fn remove_all(
    dataset: &[u8],
    stored: &[u8],
    ty: u8,
    out: &mut [u8],
    index: &mut [u8],
) -> Result<usize, Refusal>
    ensures { outputs (answer_of result) out.new index.new ≡ emit_both (by_stored dataset.now stored.now (rewritten (Without ty) dataset.now)) out.old index.old }
{
    dataset_index::load(dataset, stored)?;
    if index.len() < INDEX_BYTES {
        let mut scratch = [0u8; 1];
        return no_room_for(dataset_edits::remove_all(dataset, ty, &mut scratch));
    }
    let written = dataset_edits::remove_all(dataset, ty, out);
    put_index(written, out, index)
}
