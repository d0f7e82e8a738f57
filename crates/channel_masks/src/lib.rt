// The items of a channel mask (dataset.rs), read from its bytes and written.
#![tactic(auto)]

ghost use Rattle.std.specs.Prelude.{◌≡◌, length};
ghost use Rattle.refusal.specs.Answer.{on_given};
ghost use Rattle.refusal.specs.Output.{output, emit};
ghost use Rattle.refusal.specs.Results.{answer_of};
ghost use Rattle.channel_masks.specs.Mask.{items, item_at, item_written};

use refusal::{Fault, Refusal};

// What stands at a place of a channel mask: an item, whose bytes are the len bytes from start on; one that is cut short; or nothing.
#[derive(Clone, Copy)]
pub enum MaskItem {
    Item { page: u8, start: usize, len: usize },
    Cut,
    End,
}

// What stands at a place of a channel mask: the step of a walk over its items.
pub fn mask_item_at(value: &[u8], at: usize) -> MaskItem
    ensures { result ≡ item_at value.now at }
{
    let n = value.len();
    if n <= at {
        return MaskItem::End;
    }
    if n <= at + 1 {
        return MaskItem::Cut;
    }
    let len = value[at + 1] as usize;
    if at + 2 + len <= n {
        return MaskItem::Item {
            page: value[at],
            start: at + 2,
            len,
        };
    }
    MaskItem::Cut
}

// How many items a channel mask has. Refusals: 1, then 5 at the place of its entry, which is 0 for a bare value.
pub fn count_mask_items(value: &[u8], place: usize) -> Result<usize, Refusal>
    ensures { answer_of result ≡ on_given length (items place value.now) }
{
    if value.len() > refusal::MAX_BYTES {
        return refusal::refuse(Fault::TooLarge, 0);
    }
    let mut n: usize = 0;
    let mut at: usize = 0;
    loop {
        match mask_item_at(value, at) {
            MaskItem::Item {
                page: _,
                start,
                len,
            } => {
                n += 1;
                at = start + len;
            }
            MaskItem::Cut => {
                return refusal::refuse(Fault::ItemCut, place);
            }
            MaskItem::End => {
                return Ok(n);
            }
        }
    }
}

// The most bytes of an item: its length has one byte.
const MAX_MASK: usize = 255;

// One item of a channel mask at the start of out. Refusals: 13, 11.
pub fn write_mask_item(page: u8, mask: &[u8], out: &mut [u8]) -> Result<usize, Refusal>
    ensures { output (answer_of result) out.new ≡ emit (item_written page mask.now) out.old }
{
    let n = mask.len();
    if n > MAX_MASK {
        return refusal::refuse(Fault::ValueTooLong, 0);
    }
    if n + 2 > out.len() {
        return refusal::refuse(Fault::NoRoom, 0);
    }
    out[0] = page;
    out[1] = n as u8;
    Ok(copying::put_bytes(mask, out, 2))
}
