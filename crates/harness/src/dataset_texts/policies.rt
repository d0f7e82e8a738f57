// A security policy in a named form: `pol.v`, `pol.q`, `pol.thr`, `pol.set`.
use crate::answers::{Put, put_found, put_read};
use crate::built_texts::{put_version, version_of};
use crate::edit_texts::lent::changed;
use crate::requests::{Values, asks};
use crate::texts::{PATTERN, Room, part_of, put_dirty, put_hex, put_refusal, put_text, put_triple};
use policy_flags::ThreadProtocolVersion;
use policy_forms::{EitherPolicy, PolicyForm, security_policy};

// How many bytes it has, rotation and flags.
impl Put for EitherPolicy {
    fn put(self, text: &mut Room, at: usize) -> usize {
        match self {
            EitherPolicy::Three(p) => {
                put_triple(text, at, 3, u64::from(p.rotation_time), u64::from(p.flags))
            }
            EitherPolicy::Four(p) => put_triple(
                text,
                at,
                4,
                u64::from(p.rotation_time),
                u64::from(p.flags.bits()),
            ),
        }
    }
}

fn put_stated(text: &mut Room, at: usize, stated: Option<ThreadProtocolVersion>) -> usize {
    match stated {
        Some(version) => put_version(text, at, version),
        None => put_text(text, at, b"ok none-stated"),
    }
}

// The value as it is written back, into more room than it takes.
fn put_back(text: &mut Room, at: usize, policy: EitherPolicy) -> usize {
    let mut lent = [PATTERN; 8];
    match policy.write(&mut lent) {
        Ok(n) => {
            let end = put_hex(text, at, part_of(&lent, 0, n));
            put_dirty(text, end, changed(&lent, n))
        }
        Err(r) => put_refusal(text, at, r),
    }
}

fn put_set(text: &mut Room, at: usize, set: Result<EitherPolicy, EitherPolicy>) -> usize {
    match set {
        Ok(policy) => {
            let word = put_text(text, at, b"ok set ");
            put_back(text, word, policy)
        }
        Err(policy) => {
            let word = put_text(text, at, b"ok none-stated ");
            put_back(text, word, policy)
        }
    }
}

fn form_texts(request: &Room, v: Values, form: PolicyForm, text: &mut Room, at: usize) -> usize {
    let s = v.bytes(request, 2);
    if asks(request, b"pol.q tb") {
        return put_found(text, at, security_policy(s, form));
    }
    let read = EitherPolicy::parse(s, form, 0);
    if asks(request, b"pol.v tb") {
        return put_read(text, at, read);
    }
    if asks(request, b"pol.thr tb") {
        return match read {
            Ok(policy) => put_stated(text, at, policy.version_threshold_for_routing()),
            Err(r) => put_refusal(text, at, r),
        };
    }
    if asks(request, b"pol.set tbv") {
        let version = version_of(v.number(3));
        return match read {
            Ok(policy) => put_set(text, at, policy.set_version_threshold_for_routing(version)),
            Err(r) => put_refusal(text, at, r),
        };
    }
    at
}

// The form is named by the number of its bytes.
pub(crate) fn policy_texts(request: &Room, v: Values, text: &mut Room, at: usize) -> usize {
    match v.number(1) {
        3 => form_texts(request, v, PolicyForm::ThreeBytes, text, at),
        4 => form_texts(request, v, PolicyForm::FourBytes, text, at),
        _ => at,
    }
}
