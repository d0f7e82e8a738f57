// The call that writes a security policy back in the form in which it was read: `pol.back`.
use crate::edit_texts::answers::Answer;
use crate::requests::{Values, asks};
use crate::texts::Room;
use policy_forms::{EitherPolicy, PolicyForm};

fn written_back(value: &[u8], form: PolicyForm, lent: &mut [u8]) -> Answer {
    Answer::Wrote(EitherPolicy::parse(value, form, 0).and_then(|policy| policy.write(lent)))
}

pub(crate) fn policy_calls(request: &Room, v: Values, lent: &mut [u8]) -> Answer {
    if asks(request, b"pol.back tbn") {
        return match v.number(1) {
            3 => written_back(v.bytes(request, 2), PolicyForm::ThreeBytes, lent),
            4 => written_back(v.bytes(request, 2), PolicyForm::FourBytes, lent),
            _ => Answer::Unknown,
        };
    }
    Answer::Unknown
}
