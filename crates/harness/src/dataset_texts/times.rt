// Calls on times, `wdelay` and `due` of a pending dataset, `wdelay30` and `due30` by the old number, and `ts.parts` of a timestamp, and on a
// change list, `ops`.
use crate::answers::put_read;
use crate::dataset_texts::lists::put_list;
use crate::dataset_texts::policies::policy_texts;
use crate::requests::{Values, asks};
use crate::texts::Room;
use delay::{due_second, due_second_half_minute, working_delay, working_delay_half_minute};
use timestamps::Timestamp;

// A timestamp has eight bytes, and a request with another number of them is for no call.
fn put_parts(text: &mut Room, at: usize, value: &[u8]) -> usize {
    if value.len() != 8 {
        return at;
    }
    put_read(text, at, Timestamp::parse(value, 0))
}

pub(crate) fn time_texts(request: &Room, v: Values, text: &mut Room, at: usize) -> usize {
    let s = v.bytes(request, 1);
    if asks(request, b"wdelay b") {
        return put_read(text, at, working_delay(s));
    }
    if asks(request, b"wdelay30 b") {
        return put_read(text, at, working_delay_half_minute(s));
    }
    if asks(request, b"due bn") {
        return put_read(text, at, due_second(s, v.number(2)));
    }
    if asks(request, b"due30 bn") {
        return put_read(text, at, due_second_half_minute(s, v.number(2)));
    }
    if asks(request, b"ts.parts b") {
        return put_parts(text, at, s);
    }
    if asks(request, b"ops b") {
        return put_list(text, at, s);
    }
    policy_texts(request, v, text, at)
}
