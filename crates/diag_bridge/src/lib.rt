// The bridge to `diag_tables::decode` for callers that have tables by value: parts of them are lent to it, and they come back.
#![tactic(auto)]

ghost use Rattle.std.specs.Prelude.{◌≡◌};
ghost use Rattle.network_bridge.specs.Parts.{lent_of};
ghost use Rattle.diag_bridge.specs.Parts.{left_whole, outcome_of};

use diag::NetDiagData;
use network_bridge::{PLACES, Tables};
use refusal::Refusal;

// The answer of a call, and the tables as it left them.
#[derive(Clone, Copy)]
pub struct Left {
    pub answer: Result<NetDiagData, Refusal>,
    pub tables: Tables,
}

// `diag_tables::decode` with the first records of each table lent: np, nh and nb of them, or all where more are asked for.
pub fn decode(payload: &[u8], tables: Tables, np: usize, nh: usize, nb: usize) -> Left
    ensures { outcome_of payload.now result ≡ left_whole payload.now tables.prefixes (lent_of np) tables.has_route (lent_of nh) tables.border_routers (lent_of nb) }
{
    let Tables {
        mut prefixes,
        mut has_route,
        mut border_routers,
    } = tables;
    let answer = diag_tables::decode(
        payload,
        &mut prefixes[..np.min(PLACES)],
        &mut has_route[..nh.min(PLACES)],
        &mut border_routers[..nb.min(PLACES)],
    );
    Left {
        answer,
        tables: Tables {
            prefixes,
            has_route,
            border_routers,
        },
    }
}
