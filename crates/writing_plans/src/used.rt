// How many rows of each lent table a record uses.
ghost use Rattle.std.specs.Prelude.{◌≡◌};
ghost use Rattle.refusal.specs.Results.{option_of};
ghost use Rattle.writing_plans.specs.Used.{counts_in, children_used};

use diag::NetworkDataPart;
use diag_rows::Part;
use network_data::Counts;

#[tactic(auto, unfolding(crate::specs::Used::counts_in))]
pub(crate) fn counts_in(x: Option<NetworkDataPart>) -> Counts
    ensures { result ≡ counts_in x }
{
    match x {
        Some(n) => n.counts,
        None => Counts {
            prefixes: 0,
            has_routes: 0,
            border_routers: 0,
        },
    }
}

// Three bytes of a child table are a row.
#[tactic(auto, unfolding(crate::specs::Used::children_used, crate::specs::Used::least))]
pub(crate) fn children_used(x: Option<Part>, lent: usize) -> usize
    ensures { result ≡ children_used (option_of x) lent }
{
    match x {
        Some(p) => (p.len / 3).min(lent),
        None => 0,
    }
}
