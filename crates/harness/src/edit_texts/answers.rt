// What calls answer that write into an output which is lent.
use crate::edit_texts::lent::put_written;
use crate::texts::Room;
use refusal::Refusal;

// Unknown: the request is for none of the calls that were tried.
#[derive(Clone, Copy)]
pub(crate) enum Answer {
    Unknown,
    Wrote(Result<usize, Refusal>),
}

pub(crate) fn put_answer(text: &mut Room, at: usize, answer: Answer, lent: &[u8]) -> usize {
    match answer {
        Answer::Unknown => at,
        Answer::Wrote(written) => put_written(text, at, written, lent),
    }
}
