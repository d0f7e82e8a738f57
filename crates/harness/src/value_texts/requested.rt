// Which value a request is for: `d.TYPE`.
use crate::requests::asks;
use crate::texts::Room;

// No field has it.
pub(crate) const NO_TYPE: u8 = 255;

// The type that a request `d.TYPE` names, or NO_TYPE.
pub(crate) fn named_type(request: &Room) -> u8 {
    if asks(request, b"d.0 b") {
        return 0;
    }
    if asks(request, b"d.1 b") {
        return 1;
    }
    if asks(request, b"d.2 b") {
        return 2;
    }
    if asks(request, b"d.3 b") {
        return 3;
    }
    if asks(request, b"d.4 b") {
        return 4;
    }
    if asks(request, b"d.5 b") {
        return 5;
    }
    if asks(request, b"d.6 b") {
        return 6;
    }
    if asks(request, b"d.8 b") {
        return 8;
    }
    later_type(request)
}

fn later_type(request: &Room) -> u8 {
    if asks(request, b"d.9 b") {
        return 9;
    }
    if asks(request, b"d.14 b") {
        return 14;
    }
    if asks(request, b"d.15 b") {
        return 15;
    }
    if asks(request, b"d.16 b") {
        return 16;
    }
    if asks(request, b"d.17 b") {
        return 17;
    }
    if asks(request, b"d.18 b") {
        return 18;
    }
    if asks(request, b"d.23 b") {
        return 23;
    }
    if asks(request, b"d.30 b") {
        return 30;
    }
    NO_TYPE
}
