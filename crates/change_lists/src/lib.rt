// Change lists: what stands at a place of one, and how many operations it has.
#![tactic(auto)]

mod walk;

ghost use Rattle.std.specs.Prelude.{◌≡◌, length, eqb};
ghost use Rattle.refusal.specs.Sizes.{most_entries};
ghost use Rattle.refusal.specs.Answer.{pick, on_given};
ghost use Rattle.refusal.specs.Results.{answer_of};
ghost use Rattle.tlv.specs.Place.{frame_at};
ghost use Rattle.change_lists.specs.Operations.{operations};
ghost use Rattle.change_lists.specs.Place.{set_at, op_frame_at};

use refusal::{Fault, Refusal};
use tlv::Frame;
pub use walk::{Operation, OperationIter, operations};

// What stands at a place of a list: a set, whose value is the len bytes from start on; a removal; an operation that is cut short or
// has an unknown mark; or nothing.
#[derive(Clone, Copy)]
pub enum OpFrame {
    Set { ty: u8, start: usize, len: usize },
    Remove { ty: u8 },
    Bad,
    End,
}

// A set whose entry stands at a place.
fn set_at(list: &[u8], at: usize) -> OpFrame
    ensures { result ≡ set_at (frame_at list.now at) }
{
    match tlv::frame_at(list, at) {
        Frame::Entry { ty, start, len } => OpFrame::Set { ty, start, len },
        _ => OpFrame::Bad,
    }
}

// What stands at a place of a list: the step of every walk over operations. The next stands at start + len after a set, and at at + 3
// after a removal.
pub fn operation_at(list: &[u8], at: usize) -> OpFrame
    ensures { result ≡ op_frame_at list.now at }
{
    if list.len() <= at {
        return OpFrame::End;
    }
    match &list[at..] {
        [0x53, 0x45, _, ..] => set_at(list, at + 2),
        [0x52, 0x4D, ty, ..] => OpFrame::Remove { ty: *ty },
        _ => OpFrame::Bad,
    }
}

// The place of the first operation past the most that a list may have: at, where that many are passed, and else over, as it was.
fn over_at(n: usize, at: usize, over: usize) -> usize
    ensures { result ≡ pick (eqb n most_entries) at over }
{
    if n == refusal::MAX_ENTRIES { at } else { over }
}

// How many operations a list has, which is the caller's input of that number. Refusals: 1, 9, 3.
pub fn count_operations(list: &[u8], input: u8) -> Result<usize, Refusal>
    ensures { answer_of result ≡ on_given length (operations input list.now) }
{
    if list.len() > refusal::MAX_BYTES {
        return Err(Refusal {
            fault: Fault::TooLarge,
            place: 0,
            input,
        });
    }
    let mut at: usize = 0;
    let mut n: usize = 0;
    let mut over: usize = 0;
    loop {
        match operation_at(list, at) {
            OpFrame::End => {
                return tlv::stopped(None, at, n, over, input);
            }
            OpFrame::Bad => {
                return tlv::stopped(Some(Fault::BadOperation), at, n, over, input);
            }
            OpFrame::Set { ty: _, start, len } => {
                over = over_at(n, at, over);
                n += 1;
                at = start + len;
            }
            OpFrame::Remove { ty: _ } => {
                over = over_at(n, at, over);
                n += 1;
                at += 3;
            }
        }
    }
}
