// The bridge to `network_tables::decode` for callers that have tables by value: parts of them are lent to it, and they come back.
#![tactic(auto)]

ghost use Rattle.std.specs.Prelude.{◌≡◌, [], ◌∷◌};
ghost use Rattle.network_data.specs.Decode.{decode_network_data};
ghost use Rattle.network_bridge.specs.Parts.{places, lent_of, left_whole, outcome_of};

use network_data::{BorderRouterEntry, Counts, HasRouteEntry, PrefixEntry};
use refusal::Refusal;

// The records of each table.
pub const PLACES: usize = 128;

// The public constant, held to its number.
fn constants() -> [usize; 1]
    ensures { result ≡ places ∷ [] }
{
    [PLACES]
}

#[derive(Clone, Copy)]
pub struct Tables {
    pub prefixes: [PrefixEntry; PLACES],
    pub has_route: [HasRouteEntry; PLACES],
    pub border_routers: [BorderRouterEntry; PLACES],
}

// The answer of a call, and the tables as it left them.
#[derive(Clone, Copy)]
pub struct Decoded {
    pub answer: Result<Counts, Refusal>,
    pub tables: Tables,
}

// `network_tables::decode` with the first records of each table lent: np, nh and nb of them, or all where more are asked for.
pub fn decode(value: &[u8], tables: Tables, np: usize, nh: usize, nb: usize) -> Decoded
    ensures { outcome_of result ≡ left_whole (decode_network_data 0 value.now) tables.prefixes (lent_of np) tables.has_route (lent_of nh) tables.border_routers (lent_of nb) }
{
    let Tables {
        mut prefixes,
        mut has_route,
        mut border_routers,
    } = tables;
    let answer = network_tables::decode(
        value,
        &mut prefixes[..np.min(PLACES)],
        &mut has_route[..nh.min(PLACES)],
        &mut border_routers[..nb.min(PLACES)],
    );
    Decoded {
        answer,
        tables: Tables {
            prefixes,
            has_route,
            border_routers,
        },
    }
}
