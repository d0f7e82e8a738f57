// Typed queries of a dataset, `q.KIND`, and the same of a bare value, `v.KIND`.
use crate::answers::{put_found, put_read};
use crate::dataset_texts::masks::{put_found_mask, put_mask};
use crate::dataset_texts::times::time_texts;
use crate::dataset_texts::typed::{put_checked, put_spot};
use crate::requests::{Values, asks};
use crate::texts::Room;
use dataset_parts::{channel_mask, channel_mask_value, network_name, network_name_value};
use timestamps::Timestamp;
use values::{Channel, SecurityPolicy};

pub(crate) fn query_texts(request: &Room, v: Values, text: &mut Room, at: usize) -> usize {
    let s = v.bytes(request, 1);
    if asks(request, b"q.channel b") {
        return put_found(text, at, dataset::channel(s));
    }
    if asks(request, b"q.panid b") {
        return put_found(text, at, dataset::pan_id(s));
    }
    if asks(request, b"q.delay b") {
        return put_found(text, at, dataset::delay_timer(s));
    }
    if asks(request, b"q.activets b") {
        return put_found(text, at, dataset::active_timestamp(s));
    }
    if asks(request, b"q.pendingts b") {
        return put_found(text, at, dataset::pending_timestamp(s));
    }
    if asks(request, b"q.policy b") {
        return put_found(text, at, dataset::security_policy(s));
    }
    byte_queries(request, v, text, at)
}

fn byte_queries(request: &Room, v: Values, text: &mut Room, at: usize) -> usize {
    let s = v.bytes(request, 1);
    if asks(request, b"q.extpanid b") {
        return put_found(text, at, dataset::extended_pan_id(s));
    }
    if asks(request, b"q.mlprefix b") {
        return put_found(text, at, dataset::mesh_local_prefix(s));
    }
    if asks(request, b"q.key b") {
        return put_found(text, at, dataset::network_key(s));
    }
    if asks(request, b"q.name b") {
        return put_spot(text, at, network_name(s), network_name_value(s));
    }
    if asks(request, b"q.pskc b") {
        return put_spot(text, at, dataset_raw::pskc(s), dataset_raw::pskc_value(s));
    }
    if asks(request, b"q.mask b") {
        return put_found_mask(text, at, channel_mask(s), channel_mask_value(s));
    }
    number_values(request, v, text, at)
}

fn number_values(request: &Room, v: Values, text: &mut Room, at: usize) -> usize {
    let s = v.bytes(request, 1);
    if asks(request, b"v.channel b") {
        return put_read(text, at, Channel::parse(s, 0));
    }
    if asks(request, b"v.panid b") {
        return put_read(text, at, wire::read_u16(s, 0));
    }
    if asks(request, b"v.delay b") {
        return put_read(text, at, wire::read_u32(s, 0));
    }
    if asks(request, b"v.activets b") {
        return put_read(text, at, Timestamp::parse(s, 0));
    }
    if asks(request, b"v.pendingts b") {
        return put_read(text, at, Timestamp::parse(s, 0));
    }
    if asks(request, b"v.policy b") {
        return put_read(text, at, SecurityPolicy::parse(s, 0));
    }
    byte_values(request, v, text, at)
}

fn byte_values(request: &Room, v: Values, text: &mut Room, at: usize) -> usize {
    let s = v.bytes(request, 1);
    if asks(request, b"v.extpanid b") {
        return put_read(text, at, plain_values::read_array::<8>(s, 0));
    }
    if asks(request, b"v.mlprefix b") {
        return put_read(text, at, plain_values::read_array::<8>(s, 0));
    }
    if asks(request, b"v.key b") {
        return put_read(text, at, plain_values::read_array::<16>(s, 0));
    }
    if asks(request, b"v.name b") {
        return put_checked(text, at, plain_values::check_name(s, 0), s);
    }
    if asks(request, b"v.pskc b") {
        return put_checked(text, at, plain_values::check_bytes(s), s);
    }
    if asks(request, b"v.mask b") {
        return put_mask(text, at, channel_masks::count_mask_items(s, 0), s);
    }
    time_texts(request, v, text, at)
}
