// The timestamp of a dataset (dataset.rs), read from its bytes and written.
#![tactic(auto)]

ghost use Rattle.std.specs.Prelude.{◌≡◌};
ghost use Rattle.refusal.specs.Answer.{on_given};
ghost use Rattle.refusal.specs.Results.{answer_of};
ghost use Rattle.wire.specs.Be.{ruled};
ghost use Rattle.timestamps.specs.Timestamps.{timestamp_of, timestamp_bytes, built, seconds_of, ticks_of, authoritative_of};

use refusal::Refusal;

// Seconds times 65,536, plus ticks times 2, plus the authoritative bit.
#[derive(Clone, Copy)]
pub struct Timestamp(pub u64);

impl Timestamp {
    pub fn from_raw(raw: u64) -> Timestamp
        ensures { result.0 ≡ raw }
    {
        Timestamp(raw)
    }

    // Keeps seconds modulo 2^48 and ticks modulo 32,768.
    pub fn from_components(seconds: u64, ticks: u16, authoritative: bool) -> Timestamp
        ensures { result.0 ≡ built seconds ticks authoritative }
    {
        Timestamp(
            seconds % 281474976710656 * 65536
                + u64::from(ticks % 32768) * 2
                + u64::from(authoritative),
        )
    }

    // The timestamp that a value of 8 bytes holds. Refusals: 1, then 4 at the place of its entry.
    pub fn parse(value: &[u8], place: usize) -> Result<Timestamp, Refusal>
        ensures { answer_of result ≡ on_given timestamp_of (ruled 8 place value.now) }
    {
        Ok(Timestamp(wire::read_u64(value, place)?))
    }

    pub fn raw(self) -> u64
        ensures { result ≡ self.0 }
    {
        let raw = self.0;
        raw
    }

    pub fn seconds(self) -> u64
        ensures { result ≡ seconds_of self.0 }
    {
        self.0 / 65536
    }

    pub fn ticks(self) -> u16
        ensures { result ≡ ticks_of self.0 }
    {
        (self.0 / 2 % 32768) as u16
    }

    pub fn authoritative(self) -> bool
        ensures { result ≡ authoritative_of self.0 }
    {
        self.0 % 2 == 1
    }

    pub fn to_value(self) -> [u8; 8]
        ensures { result ≡ timestamp_bytes self }
    {
        wire_bytes::u64_bytes(self.0)
    }
}
