// The text of a change list: how many operations, then each.
use crate::answers::put_given;
use crate::texts::{Room, put_byte, put_hex, put_number, put_refusal, put_text};
use change_lists::Operation;

fn put_set(text: &mut Room, at: usize, ty: u8, value: &[u8]) -> usize {
    let mark = put_text(text, at, b" s:");
    let number = put_number(text, mark, ty as u64);
    let colon = put_byte(text, number, b':');
    put_hex(text, colon, value)
}

fn put_removal(text: &mut Room, at: usize, ty: u8) -> usize {
    let mark = put_text(text, at, b" r:");
    put_number(text, mark, ty as u64)
}

fn put_operations(text: &mut Room, at: usize, list: &[u8]) -> usize {
    let mut next = at;
    for operation in change_lists::operations(list) {
        next = match operation {
            Operation::Set {
                place: _,
                ty,
                value,
            } => put_set(text, next, ty, value),
            Operation::Remove { place: _, ty } => put_removal(text, next, ty),
        };
    }
    next
}

pub(crate) fn put_list(text: &mut Room, at: usize, list: &[u8]) -> usize {
    match change_lists::count_operations(list, 0) {
        Ok(n) => {
            let count = put_given(text, at, n);
            put_operations(text, count, list)
        }
        Err(r) => put_refusal(text, at, r),
    }
}
