// Values that are plain bytes (dataset.rs): so many bytes as they are, a network name, a PSKc.
#![tactic(auto)]

ghost use Rattle.std.specs.Prelude.{◌≡◌};
ghost use Rattle.refusal.specs.Results.{answer_of};
ghost use Rattle.wire.specs.Be.{ruled};
ghost use Rattle.plain_values.specs.Plain.{checked, sized_value, name_at};

use refusal::{Fault, Refusal};

// The bytes of a value that has N of them. Refusals: 1, then 4 at the place of its entry, which is 0 for a bare value.
#[tactic(auto, using(wire::proofs::Bes::whole_is, wire::proofs::Bes::whole_not, crate::proofs::Bytes::same_byte))]
pub fn read_array<const N: usize>(value: &[u8], place: usize) -> Result<[u8; N], Refusal>
    ensures { answer_of result ≡ ruled N place value.now }
{
    match value.try_into() {
        Ok(bytes) => Ok(bytes),
        Err(_) => Err(wire::misfit(value.len(), place)),
    }
}

// A bare value of any length, as a PSKc is. Refusal: 1.
#[tactic(auto, unfolding(crate::specs::Plain::sized_value))]
pub fn check_bytes(value: &[u8]) -> Result<(), Refusal>
    ensures { answer_of result ≡ checked (sized_value value.now) }
{
    if value.len() > refusal::MAX_BYTES {
        return refusal::refuse(Fault::TooLarge, 0);
    }
    Ok(())
}

// A network name. Refusals: 1, then 6 at the place of its entry, which is 0 for a bare value.
#[tactic(auto, unfolding(crate::specs::Plain::name_at))]
pub fn check_name(value: &[u8], place: usize) -> Result<(), Refusal>
    ensures { answer_of result ≡ checked (name_at place value.now) }
{
    check_bytes(value)?;
    if utf8::is_utf8(value) {
        return Ok(());
    }
    refusal::refuse(Fault::NotUtf8, place)
}
