// The flags of a security policy (dataset.rs), and the version threshold for routing that they hold.
#![tactic(auto)]

ghost use Rattle.std.specs.Prelude.{◌≡◌};
ghost use Rattle.policy_flags.specs.Threshold.{flag_masks, has_all, threshold, with_threshold};

#[derive(Clone, Copy)]
pub struct SecurityPolicyFlags(pub u16);

// The version threshold for routing.
#[derive(Clone, Copy)]
pub enum ThreadProtocolVersion {
    V1Or2,
    V3,
    V4,
    V5,
    V6,
    V7,
    V8,
    V9,
    V10,
}

impl SecurityPolicyFlags {
    pub const OUT_OF_BAND_COMMISSIONING_DISALLOWED: u16 = 0x0001;

    pub const NATIVE_COMMISSIONING_DISALLOWED: u16 = 0x0002;

    pub const LEGACY_ROUTERS_ENABLED: u16 = 0x0004;

    pub const EXTERNAL_COMMISSIONER_AUTH_REQUIRED: u16 = 0x0008;

    pub const COMMERCIAL_COMMISSIONING_MODE: u16 = 0x0010;

    const VERSION_THRESHOLD_MASK: u16 = 0xe000;

    // Flags of any bits, unknown ones too.
    pub fn from_bits_retain(bits: u16) -> SecurityPolicyFlags
        ensures { result.0 ≡ bits }
    {
        SecurityPolicyFlags(bits)
    }

    pub fn bits(self) -> u16
        ensures { result ≡ self.0 }
    {
        let all = self.0;
        all
    }

    // Whether all bits of the mask are set.
    pub fn contains(self, mask: u16) -> bool
        ensures { result ≡ has_all self.0 mask }
    {
        (self.0 & mask) == mask
    }

    pub fn version_threshold_for_routing(self) -> ThreadProtocolVersion
        ensures { result ≡ threshold self.0 }
    {
        if self.contains(Self::LEGACY_ROUTERS_ENABLED) {
            return ThreadProtocolVersion::V1Or2;
        }
        let field = (self.0 & Self::VERSION_THRESHOLD_MASK) >> 13;
        match field {
            0 => ThreadProtocolVersion::V3,
            1 => ThreadProtocolVersion::V4,
            2 => ThreadProtocolVersion::V5,
            3 => ThreadProtocolVersion::V6,
            4 => ThreadProtocolVersion::V7,
            5 => ThreadProtocolVersion::V8,
            6 => ThreadProtocolVersion::V9,
            _ => ThreadProtocolVersion::V10,
        }
    }

    // The flags with another threshold. `V1Or2` only sets the legacy flag; any other clears it and writes bits 13 to 15.
    pub fn set_version_threshold_for_routing(
        self,
        version: ThreadProtocolVersion,
    ) -> SecurityPolicyFlags
        ensures { result.0 ≡ with_threshold self.0 version }
    {
        let others = self.0 & !Self::LEGACY_ROUTERS_ENABLED;
        let rest = others & !Self::VERSION_THRESHOLD_MASK;
        match version {
            ThreadProtocolVersion::V1Or2 => {
                SecurityPolicyFlags(self.0 | Self::LEGACY_ROUTERS_ENABLED)
            }
            ThreadProtocolVersion::V3 => SecurityPolicyFlags(rest),
            ThreadProtocolVersion::V4 => SecurityPolicyFlags(rest | 0x2000),
            ThreadProtocolVersion::V5 => SecurityPolicyFlags(rest | 0x4000),
            ThreadProtocolVersion::V6 => SecurityPolicyFlags(rest | 0x6000),
            ThreadProtocolVersion::V7 => SecurityPolicyFlags(rest | 0x8000),
            ThreadProtocolVersion::V8 => SecurityPolicyFlags(rest | 0xa000),
            ThreadProtocolVersion::V9 => SecurityPolicyFlags(rest | 0xc000),
            ThreadProtocolVersion::V10 => SecurityPolicyFlags(rest | 0xe000),
        }
    }
}

// The public constants, held to their numbers.
fn constants() -> [u16; 5]
    ensures { result ≡ flag_masks }
{
    [
        SecurityPolicyFlags::OUT_OF_BAND_COMMISSIONING_DISALLOWED,
        SecurityPolicyFlags::NATIVE_COMMISSIONING_DISALLOWED,
        SecurityPolicyFlags::LEGACY_ROUTERS_ENABLED,
        SecurityPolicyFlags::EXTERNAL_COMMISSIONER_AUTH_REQUIRED,
        SecurityPolicyFlags::COMMERCIAL_COMMISSIONING_MODE,
    ]
}
