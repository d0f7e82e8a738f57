// Numbers of 2, 4 and 8 bytes, big-endian, read from values of exactly that length.
#![tactic(auto)]

ghost use Rattle.std.specs.Prelude.{◌≡◌, ℕ};
ghost use Rattle.refusal.specs.Number.{refusal_answer};
ghost use Rattle.refusal.specs.Results.{answer_of};
ghost use Rattle.wire.specs.Be.{wrong_length, ruled, fixed};

use refusal::{Fault, Refusal};

// Why a value of n bytes, which is not its length, is refused: 1, or 4 at the place of its entry.
#[tactic(auto, unfolding(crate::specs::Be::wrong_length))]
pub fn misfit(n: usize, place: usize) -> Refusal
    ensures { refusal_answer {A = ℕ} result ≡ wrong_length place n }
{
    if n > refusal::MAX_BYTES {
        return Refusal {
            fault: Fault::TooLarge,
            place: 0,
            input: 0,
        };
    }
    Refusal {
        fault: Fault::BadLength,
        place,
        input: 0,
    }
}

// The bytes of a value that has N of them.
#[tactic(auto, using(crate::proofs::Bes::whole_is, crate::proofs::Bes::whole_not))]
fn exact<const N: usize>(value: &[u8], place: usize) -> Result<[u8; N], Refusal>
    ensures { answer_of result ≡ ruled N place value.now }
{
    match value.try_into() {
        Ok(bytes) => Ok(bytes),
        Err(_) => Err(misfit(value.len(), place)),
    }
}

// The number that a value of 2 bytes spells. Refusals: 1, then 4 at the place of its entry, which is 0 for a bare value.
#[tactic(auto, using(refusal::proofs::Papers::passes, crate::proofs::Bes::reads_2), unfolding(crate::specs::Be::fixed))]
pub fn read_u16(value: &[u8], place: usize) -> Result<u16, Refusal>
    ensures { answer_of result ≡ fixed 2 place value.now }
{
    Ok(u16::from_be_bytes(exact(value, place)?))
}

// The same of 4 bytes.
#[tactic(auto, using(refusal::proofs::Papers::passes, crate::proofs::Bes::reads_4), unfolding(crate::specs::Be::fixed))]
pub fn read_u32(value: &[u8], place: usize) -> Result<u32, Refusal>
    ensures { answer_of result ≡ fixed 4 place value.now }
{
    Ok(u32::from_be_bytes(exact(value, place)?))
}

// The same of 8 bytes.
#[tactic(auto, using(refusal::proofs::Papers::passes, crate::proofs::Bes::reads_8), unfolding(crate::specs::Be::fixed))]
pub fn read_u64(value: &[u8], place: usize) -> Result<u64, Refusal>
    ensures { answer_of result ≡ fixed 8 place value.now }
{
    Ok(u64::from_be_bytes(exact(value, place)?))
}
