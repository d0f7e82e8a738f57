// What goes into lent tables of Network Data records is planned before a table is touched.
#![tactic(auto)]

ghost use Rattle.std.specs.Prelude.{◌≡◌};
ghost use Rattle.refusal.specs.Results.{answer_of};
ghost use Rattle.network_data.specs.Decode.{decode_network_data};
ghost use Rattle.network_plans.specs.Planned.{room_for, answered};

use network_data::{Counts, check};
use refusal::{Fault, Refusal, refuse};

// The answer to so many records, by the places p, h and b in the tables.
#[tactic(auto, unfolding(crate::specs::Planned::room_for))]
fn roomy(c: Counts, p: usize, h: usize, b: usize) -> Result<Counts, Refusal>
    ensures { answer_of result ≡ room_for c p h b }
{
    if c.prefixes > p || c.has_routes > h || c.border_routers > b {
        return refuse(Fault::NoRoom, 0);
    }
    Ok(c)
}

// How many records of a bare value go into tables of p, h and b places. Refusals: as `check` at place 0, then 11.
#[tactic(auto, using(refusal::proofs::Papers::passes, crate::proofs::Checks::answered_given, crate::proofs::Checks::answered_refused))]
pub fn plan_for(value: &[u8], p: usize, h: usize, b: usize) -> Result<Counts, Refusal>
    ensures { answer_of result ≡ answered (decode_network_data 0 value.now) p h b }
{
    roomy(check(value, 0)?, p, h, b)
}
