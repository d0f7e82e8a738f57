// What a diagnostic payload says, with the records of its Network Data in the caller's tables (`NetDiagData::decode` of decode.rs).
#![tactic(auto)]

ghost use Rattle.std.specs.Prelude.{◌≡◌};
ghost use Rattle.diag.specs.Answers.{decoded_answer};
ghost use Rattle.diag_tables.specs.Tables.{outcome, decoded};

use diag::NetDiagData;
use network_data::{BorderRouterEntry, HasRouteEntry, PrefixEntry};
use refusal::Refusal;

// What a payload says; the records of its Network Data go into the tables, in prefix order, and records past its counts stay. Refusals: 1, 2, 3,
// then 4, 5 and 12 at the first entry that does not decode, then 11 by the last Network Data; all records stay.
#[tactic(auto, using(crate::proofs::Plans::refuses, crate::proofs::Plans::no_network_data))]
pub fn decode(
    payload: &[u8],
    prefixes: &mut [PrefixEntry],
    has_route: &mut [HasRouteEntry],
    border_routers: &mut [BorderRouterEntry],
) -> Result<NetDiagData, Refusal>
    ensures { outcome (decoded_answer payload.now result) prefixes.new has_route.new border_routers.new ≡ decoded payload.now prefixes.old has_route.old border_routers.old }
{
    let d = NetDiagData::decode(payload)?;
    if let Some(n) = d.network_data {
        network_tables::decode(
            &payload[n.start..n.start + n.len],
            prefixes,
            has_route,
            border_routers,
        )?;
    }
    Ok(d)
}
