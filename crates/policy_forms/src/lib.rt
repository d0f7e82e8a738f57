// The security policy in either of the forms in which sites store it: Thread 1.1's three bytes, and the four bytes of later versions.
#![tactic(auto)]

ghost use Rattle.std.specs.Prelude.{◌≡◌};
ghost use Rattle.refusal.specs.Answer.{given, on_given};
ghost use Rattle.refusal.specs.Output.{output, emit};
ghost use Rattle.refusal.specs.Results.{answer_of, found_of};
ghost use Rattle.policy_forms.specs.Forms.{size_in, numbers, numbers_of, read, stored_bytes, query, threshold_in, set_in};
ghost use Rattle.policy_flags.specs.Threshold.{threshold};
ghost use Rattle.policy_forms.specs.declared.EitherPolicy.TheVariants.{Three};

use policy_flags::{SecurityPolicyFlags, ThreadProtocolVersion};
use refusal::{Fault, Refusal};
use tlv_last::Spot;
use values::SecurityPolicy;

// The form that a policy is read in. The caller names it: it is never guessed from the length.
#[derive(Clone, Copy)]
pub enum PolicyForm {
    ThreeBytes,
    FourBytes,
}

// A policy of Thread 1.1: its flags are one byte, kept as it is.
#[derive(Clone, Copy)]
pub struct OlderPolicy {
    pub rotation_time: u16,
    pub flags: u8,
}

// A policy of either form.
#[derive(Clone, Copy)]
pub enum EitherPolicy {
    Three(OlderPolicy),
    Four(SecurityPolicy),
}

impl OlderPolicy {
    // None is stated: the flag byte is kept raw.
    fn threshold(self) -> Option<ThreadProtocolVersion>
        ensures { result ≡ threshold_in (Three self) }
    {
        None // its bits are not asked
    }

    // Nor can one be set: the version is not asked, and the policy goes back as it is.
    fn set_threshold(self, version: ThreadProtocolVersion) -> Result<EitherPolicy, EitherPolicy>
        ensures { result ≡ set_in (Three self) version }
    {
        Err(EitherPolicy::Three(self))
    }
}

// The policy that a value of 3 bytes holds. Refusals: 1, then 4 at the place of its entry.
fn parse_three(value: &[u8], place: usize) -> Result<EitherPolicy, Refusal>
    ensures { on_given numbers_of (answer_of result) ≡ read 3 place value.now }
{
    let n = value.len();
    if n != 3 {
        return Err(wire::misfit(n, place));
    }
    Ok(EitherPolicy::Three(OlderPolicy {
        rotation_time: u16::from_be_bytes([value[0], value[1]]),
        flags: value[2],
    }))
}

// The policy that a value of 4 bytes holds, by the call that has the Rust's name.
fn parse_four(value: &[u8], place: usize) -> Result<EitherPolicy, Refusal>
    ensures { on_given numbers_of (answer_of result) ≡ read 4 place value.now }
{
    Ok(EitherPolicy::Four(SecurityPolicy::parse(value, place)?))
}

// The threshold that the flags of four bytes state.
fn stated_by(flags: SecurityPolicyFlags) -> Option<ThreadProtocolVersion>
    ensures { result ≡ Some (threshold flags.0) }
{
    Some(flags.version_threshold_for_routing())
}

// The three bytes of a policy of Thread 1.1.
fn three_bytes(rotation: u16, flags: u8) -> [u8; 3]
    ensures { result ≡ stored_bytes (numbers 3 rotation flags) }
{
    let [upper, lower] = rotation.to_be_bytes();
    [upper, lower, flags]
}

// All of a value at the start of out. Refusal: 11.
fn put_value(value: &[u8], out: &mut [u8]) -> Result<usize, Refusal>
    ensures { output (answer_of result) out.new ≡ emit (given value.now) out.old }
{
    if value.len() > out.len() {
        return refusal::refuse(Fault::NoRoom, 0);
    }
    Ok(copying::put_bytes(value, out, 0))
}

impl EitherPolicy {
    // The policy that a value of the named form holds. Refusals: 1, then 4 at the place of its entry, which is 0 for a bare value.
    pub fn parse(value: &[u8], form: PolicyForm, place: usize) -> Result<EitherPolicy, Refusal>
        ensures { on_given numbers_of (answer_of result) ≡ read (size_in form) place value.now }
    {
        match form {
            PolicyForm::ThreeBytes => parse_three(value, place),
            PolicyForm::FourBytes => parse_four(value, place),
        }
    }

    // The value at the start of out, in the form in which it was read. Refusal: 11.
    pub fn write(self, out: &mut [u8]) -> Result<usize, Refusal>
        ensures { output (answer_of result) out.new ≡ emit (given (stored_bytes (numbers_of self))) out.old }
    {
        match self {
            EitherPolicy::Three(p) => put_value(&three_bytes(p.rotation_time, p.flags), out),
            EitherPolicy::Four(p) => put_value(&p.to_value(), out),
        }
    }

    pub fn version_threshold_for_routing(self) -> Option<ThreadProtocolVersion>
        ensures { result ≡ threshold_in self }
    {
        match self {
            EitherPolicy::Three(p) => p.threshold(),
            EitherPolicy::Four(p) => stated_by(p.flags),
        }
    }

    // The policy with another threshold, or as it is where it states none.
    pub fn set_version_threshold_for_routing(
        self,
        version: ThreadProtocolVersion,
    ) -> Result<EitherPolicy, EitherPolicy>
        ensures { result ≡ set_in self version }
    {
        match self {
            EitherPolicy::Three(p) => p.set_threshold(version),
            EitherPolicy::Four(p) => Ok(EitherPolicy::Four(SecurityPolicy {
                rotation_time: p.rotation_time,
                flags: p.flags.set_version_threshold_for_routing(version),
            })),
        }
    }
}

// The policy of a dataset, in the named form. Refusals: 1, 2, 3, then 4 at the value's entry.
#[tactic(auto, using(refusal::proofs::Papers::passes, crate::proofs::Modes::spot_within, crate::proofs::Modes::query_by_spot))]
pub fn security_policy(s: &[u8], form: PolicyForm) -> Result<Option<EitherPolicy>, Refusal>
    ensures { on_given numbers_of (found_of result) ≡ query (size_in form) s.now }
{
    match tlv_last::last_entry(s, dataset::TLV_SECURITY_POLICY, 0)? {
        Some(Spot { place, start, len }) => {
            Ok(Some(EitherPolicy::parse(&s[start..start + len], form, place)?))
        }
        None => Ok(None),
    }
}
