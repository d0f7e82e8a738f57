// The text of a channel mask: how many items, then page and bytes of each.
use crate::answers::put_given;
use crate::texts::{Room, part_of, put_absent, put_byte, put_hex, put_marked, put_refusal};
use channel_masks::MaskItem;
use dataset_parts::MaskSpot;
use refusal::Refusal;

fn put_item(text: &mut Room, at: usize, page: u8, mask: &[u8]) -> usize {
    let first = put_marked(text, at, b' ', page as usize);
    let mark = put_byte(text, first, b':');
    put_hex(text, mark, mask)
}

fn put_items(text: &mut Room, at: usize, value: &[u8]) -> usize {
    let mut next = at;
    let mut place: usize = 0;
    loop {
        match channel_masks::mask_item_at(value, place) {
            MaskItem::Item { page, start, len } => {
                let end = start + len;
                next = put_item(text, next, page, part_of(value, start, end));
                place = end;
            }
            _ => {
                return next;
            }
        }
    }
}

pub(crate) fn put_mask(
    text: &mut Room,
    at: usize,
    count: Result<usize, Refusal>,
    value: &[u8],
) -> usize {
    match count {
        Ok(n) => {
            let items = put_given(text, at, n);
            put_items(text, items, value)
        }
        Err(r) => put_refusal(text, at, r),
    }
}

// The mask of a dataset, as one by itself.
pub(crate) fn put_found_mask(
    text: &mut Room,
    at: usize,
    found: Result<Option<MaskSpot>, Refusal>,
    value: &[u8],
) -> usize {
    match found {
        Ok(Some(spot)) => put_mask(text, at, Ok(spot.items), value),
        Ok(None) => put_absent(text, at),
        Err(r) => put_refusal(text, at, r),
    }
}
