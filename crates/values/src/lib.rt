// The channel and the security policy of a dataset (dataset.rs), each read from its bytes and written.
#![tactic(auto)]

ghost use Rattle.std.specs.Prelude.{◌≡◌};
ghost use Rattle.refusal.specs.Answer.{on_given};
ghost use Rattle.refusal.specs.Results.{answer_of};
ghost use Rattle.wire.specs.Be.{ruled};
ghost use Rattle.values.specs.Typed.{channel_of, channel_bytes, policy_of, policy_bytes};

use policy_flags::SecurityPolicyFlags;
use refusal::Refusal;

#[derive(Clone, Copy)]
pub struct Channel {
    pub page: u8,
    pub channel: u16,
}

#[derive(Clone, Copy)]
pub struct SecurityPolicy {
    pub rotation_time: u16,
    pub flags: SecurityPolicyFlags,
}

impl Channel {
    // The channel that a value of 3 bytes holds. Refusals: 1, then 4 at the place of its entry, which is 0 for a bare value.
    pub fn parse(value: &[u8], place: usize) -> Result<Channel, Refusal>
        ensures { answer_of result ≡ on_given channel_of (ruled 3 place value.now) }
    {
        let &[page, upper, lower] = value else {
            return Err(wire::misfit(value.len(), place));
        };
        Ok(Channel {
            page,
            channel: u16::from_be_bytes([upper, lower]),
        })
    }

    pub fn to_value(self) -> [u8; 3]
        ensures { result ≡ channel_bytes self }
    {
        let [upper, lower] = wire_bytes::u16_bytes(self.channel);
        [self.page, upper, lower]
    }
}

impl SecurityPolicy {
    // The policy that a value of 4 bytes holds. Refusals: 1, then 4 at the place of its entry.
    pub fn parse(value: &[u8], place: usize) -> Result<SecurityPolicy, Refusal>
        ensures { answer_of result ≡ on_given policy_of (ruled 4 place value.now) }
    {
        let &[rotation_upper, rotation_lower, flags_upper, flags_lower] = value else {
            return Err(wire::misfit(value.len(), place));
        };
        Ok(SecurityPolicy {
            rotation_time: u16::from_be_bytes([rotation_upper, rotation_lower]),
            flags: SecurityPolicyFlags(u16::from_be_bytes([flags_upper, flags_lower])),
        })
    }

    pub fn to_value(self) -> [u8; 4]
        ensures { result ≡ policy_bytes self }
    {
        let [rotation_upper, rotation_lower] = wire_bytes::u16_bytes(self.rotation_time);
        let [flags_upper, flags_lower] = wire_bytes::u16_bytes(self.flags.0);
        [rotation_upper, rotation_lower, flags_upper, flags_lower]
    }
}
