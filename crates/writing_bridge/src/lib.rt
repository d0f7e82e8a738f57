// The bridge to `diag_writing::write` for callers that have tables by value: parts of them are lent to it.
#![tactic(auto)]

ghost use Rattle.std.specs.Prelude.{◌≡◌, [], ◌∷◌};
ghost use Rattle.refusal.specs.Output.{output, emit};
ghost use Rattle.refusal.specs.Results.{answer_of};
ghost use Rattle.record_writing.specs.Written.{written};
ghost use Rattle.writing_bridge.specs.Places.{child_places, list_places, lent_by};

use diag::NetDiagData;
use diag_rows::{ChildIpv6AddrInfo, ChildTableEntry};
use network_bridge::{PLACES, Tables};
use network_data::{BorderRouterEntry, HasRouteEntry, PrefixEntry};
use refusal::Refusal;
use route64::Route64;

// The rows of a child table and the address lists: one more of each than a payload can have.
pub const CHILD_PLACES: usize = refusal::MAX_BYTES / 3 + 1;

pub const LIST_PLACES: usize = refusal::MAX_ENTRIES + 1;

// The public constants, held to their numbers.
fn constants() -> [usize; 2]
    ensures { result ≡ child_places ∷ list_places ∷ [] }
{
    [CHILD_PLACES, LIST_PLACES]
}

#[derive(Clone, Copy)]
pub struct Rows {
    pub children: [ChildTableEntry; CHILD_PLACES],
    pub lists: [ChildIpv6AddrInfo; LIST_PLACES],
}

// How many records of each table are lent.
#[derive(Clone, Copy)]
pub struct Lengths {
    pub prefixes: usize,
    pub has_route: usize,
    pub border_routers: usize,
    pub children: usize,
    pub lists: usize,
}

// `diag_writing::write` with the first records of each table lent: as many as are asked for, or all where more are.
pub fn write(
    net_diag: NetDiagData,
    bytes: &[u8],
    route64: Route64,
    tables: Tables,
    rows: Rows,
    n: Lengths,
    out: &mut [u8],
) -> Result<usize, Refusal>
    ensures { output (answer_of result) out.new ≡ emit (written net_diag (lent_by bytes.now route64 tables rows n)) out.old }
{
    diag_writing::write(
        net_diag,
        bytes,
        route64,
        &tables.prefixes[..n.prefixes.min(PLACES)],
        &tables.has_route[..n.has_route.min(PLACES)],
        &tables.border_routers[..n.border_routers.min(PLACES)],
        &rows.children[..n.children.min(CHILD_PLACES)],
        &rows.lists[..n.lists.min(LIST_PLACES)],
        out,
    )
}
