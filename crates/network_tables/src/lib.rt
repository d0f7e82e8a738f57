// The records of Thread Network Data (the values of type 7 in decode.rs): by number, and into lent tables.
#![tactic(auto)]

mod prefixes;
mod records;
mod rows;

ghost use Rattle.std.specs.Prelude.{◌≡◌, List, map};
ghost use Rattle.refusal.specs.Answer.{then_do};
ghost use Rattle.network_data.specs.Decode.{Prefix, decode_network_data, all_routes, all_borders, entry_of};
ghost use Rattle.refusal.specs.Numbered.{nth};
ghost use Rattle.refusal.specs.Results.{answer_of, found_of};
ghost use Rattle.network_plans.specs.Tables.{outcome, decoded};

use network_data::{BorderRouterEntry, Counts, HasRouteEntry, PrefixEntry, check};
use network_plans::plan_for;
use records::{fill, numbered};
use refusal::Refusal;

// The HasRoute row of a bare value by its number, over all prefixes, from 0 on. Refusals: as `check` at place 0.
#[tactic(auto, using(crate::proofs::Numbers::routes_to, crate::proofs::Numbers::route_given))]
pub fn has_route_at(value: &[u8], i: usize) -> Result<Option<HasRouteEntry>, Refusal>
    ensures { found_of result ≡ then_do (decode_network_data 0 value.now) (λ (ps : List Prefix). nth (all_routes ps) i) }
{
    let c = check(value, 0)?;
    if i >= c.has_routes {
        return Ok(None);
    }
    Ok(Some(numbered(value, i)))
}

// The BorderRouter row of a bare value by its number, over all prefixes, from 0 on. Refusals: as `check` at place 0.
#[tactic(auto, using(crate::proofs::Numbers::borders_to, crate::proofs::Numbers::border_given))]
pub fn border_router_at(value: &[u8], i: usize) -> Result<Option<BorderRouterEntry>, Refusal>
    ensures { found_of result ≡ then_do (decode_network_data 0 value.now) (λ (ps : List Prefix). nth (all_borders ps) i) }
{
    let c = check(value, 0)?;
    if i >= c.border_routers {
        return Ok(None);
    }
    Ok(Some(numbered(value, i)))
}

// The prefix of a bare value by its number, from 0 on. Refusals: as `check` at place 0.
#[tactic(auto, using(crate::proofs::Numbers::spans_to, crate::proofs::Numbers::prefix_given))]
pub fn prefix_at(value: &[u8], i: usize) -> Result<Option<PrefixEntry>, Refusal>
    ensures { found_of result ≡ then_do (decode_network_data 0 value.now) (λ (ps : List Prefix). nth (map entry_of ps) i) }
{
    let c = check(value, 0)?;
    if i >= c.prefixes {
        return Ok(None);
    }
    Ok(Some(numbered(value, i)))
}

// How many records a bare value has; they go into the tables, in prefix order, and records past the counts stay. Refusals: as `check` at place
// 0, then 11; all records stay.
#[tactic(auto, using(crate::proofs::Plans::refuses, crate::proofs::Plans::finish))]
pub fn decode(
    value: &[u8],
    prefixes: &mut [PrefixEntry],
    has_route: &mut [HasRouteEntry],
    border_routers: &mut [BorderRouterEntry],
) -> Result<Counts, Refusal>
    ensures { outcome (answer_of result) prefixes.new has_route.new border_routers.new ≡ decoded (decode_network_data 0 value.now) prefixes.old has_route.old border_routers.old }
{
    let c = plan_for(value, prefixes.len(), has_route.len(), border_routers.len())?;
    fill(&mut prefixes[..c.prefixes], value);
    fill(&mut has_route[..c.has_routes], value);
    fill(&mut border_routers[..c.border_routers], value);
    Ok(c)
}
