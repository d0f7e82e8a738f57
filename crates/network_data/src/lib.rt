// Thread Network Data (the values of type 7 in decode.rs): its records, and the check of a value.
#![tactic(auto)]

mod checks;

ghost use Rattle.std.specs.Prelude.{◌≡◌, ◌∷◌};
ghost use Rattle.refusal.specs.Sizes.{most_prefixes, most_has_routes, most_border_routers};
ghost use Rattle.refusal.specs.Answer.{on_given};
ghost use Rattle.refusal.specs.Results.{answer_of};
ghost use Rattle.network_data.specs.Rules.{tlv_types, row_sizes};
ghost use Rattle.network_data.specs.Decode.{decode_network_data, counts_of};

use checks::check_items;
use refusal::{Fault, Refusal, refuse};

// A value has at most so many prefixes, and over all of them so many rows of each kind.
pub const MAX_PREFIXES: usize = 64;

pub const MAX_HAS_ROUTES: usize = 96;

pub const MAX_BORDER_ROUTERS: usize = 96;
// The types of its TLVs, as decode.rs names them: a prefix, and those inside one.
pub const NETWORK_DATA_PREFIX: u8 = 1;

pub const NETWORK_DATA_HAS_ROUTE: u8 = 0;

pub const NETWORK_DATA_BORDER_ROUTER: u8 = 2;

pub const NETWORK_DATA_6LOWPAN_CONTEXT: u8 = 3;
// The bytes of a row of each kind.
pub const HAS_ROUTE_ENTRY_LEN: usize = 3;

pub const BORDER_ROUTER_ENTRY_LEN: usize = 4;

// The public constants, held to their numbers.
fn constants() -> [usize; 5]
    ensures { result ≡ most_prefixes ∷ most_has_routes ∷ most_border_routers ∷ row_sizes }
{
    [
        MAX_PREFIXES,
        MAX_HAS_ROUTES,
        MAX_BORDER_ROUTERS,
        HAS_ROUTE_ENTRY_LEN,
        BORDER_ROUTER_ENTRY_LEN,
    ]
}

fn type_constants() -> [u8; 4]
    ensures { result ≡ tlv_types }
{
    [
        NETWORK_DATA_PREFIX,
        NETWORK_DATA_HAS_ROUTE,
        NETWORK_DATA_BORDER_ROUTER,
        NETWORK_DATA_6LOWPAN_CONTEXT,
    ]
}

#[derive(Clone, Copy)]
pub struct HasRouteEntry {
    pub rloc16: u16,
    pub router_preference: u8,
    pub is_nat64: bool,
}

#[derive(Clone, Copy)]
pub struct BorderRouterEntry {
    pub rloc16: u16,
    pub prefix_preference: u8,
    pub is_preferred: bool,
    pub is_slaac: bool,
    pub is_dhcp: bool,
    pub is_configure: bool,
    pub is_default_route: bool,
    pub is_on_mesh: bool,
    pub is_nd_dns: bool,
    pub is_dp: bool,
}

#[derive(Clone, Copy)]
pub struct SixLowPanContext {
    pub is_compress: bool,
    pub context_id: u8,
    pub context_length: u8,
}

// A prefix: its bytes, with zeros after them, and how many rows of each kind are its own.
#[derive(Clone, Copy)]
pub struct PrefixEntry {
    pub domain_id: u8,
    pub prefix_bit_length: u8,
    pub prefix: [u8; 32],
    pub six_low_pan_context: Option<SixLowPanContext>,
    pub has_routes: usize,
    pub border_routers: usize,
}

// How many records a value has.
#[derive(Clone, Copy)]
pub struct Counts {
    pub prefixes: usize,
    pub has_routes: usize,
    pub border_routers: usize,
}

// How many records a value has. Refusals: 1, then 4, 5 and 12, the first met, at the place of its entry, which is 0 for a bare value.
pub fn check(value: &[u8], place: usize) -> Result<Counts, Refusal>
    ensures { answer_of result ≡ on_given counts_of (decode_network_data place value.now) }
{
    if value.len() > refusal::MAX_BYTES {
        return refuse(Fault::TooLarge, 0);
    }
    check_items(value, place)
}
