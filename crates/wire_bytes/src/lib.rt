// The bytes of numbers of 2, 4 and 8 bytes, big-endian.
#![tactic(auto)]

ghost use Rattle.std.specs.Prelude.{◌≡◌};
ghost use Rattle.wire_bytes.specs.Bytes.{bytes_of};

#[tactic(auto, using(crate::proofs::Highest::highest_first), unfolding(crate::specs::Bytes::bytes_of))]
pub fn u16_bytes(x: u16) -> [u8; 2]
    ensures { result ≡ bytes_of 2 x }
{
    u16::to_be_bytes(x)
}

#[tactic(auto, using(crate::proofs::Highest::highest_first), unfolding(crate::specs::Bytes::bytes_of))]
pub fn u32_bytes(x: u32) -> [u8; 4]
    ensures { result ≡ bytes_of 4 x }
{
    u32::to_be_bytes(x)
}

#[tactic(auto, using(crate::proofs::Highest::highest_first), unfolding(crate::specs::Bytes::bytes_of))]
pub fn u64_bytes(x: u64) -> [u8; 8]
    ensures { result ≡ bytes_of 8 x }
{
    u64::to_be_bytes(x)
}
