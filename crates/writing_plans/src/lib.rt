// The plan of the writer, `diag_writing::write`: all that is refused, and how much is written, before the first byte is.
#![tactic(auto)]

mod lent;
mod limits;
mod linked;
mod routers;
mod sizes;
mod used;

ghost use Rattle.std.specs.Prelude.{◌≡◌, false, ◌+◌, ◌≤◌, leb};
ghost use Rattle.refusal.specs.Number.{fault_number};
ghost use Rattle.refusal.specs.Answer.{pick};
ghost use Rattle.refusal.specs.Sizes.{most_bytes, most_entries};
ghost use Rattle.writing_plans.specs.Used.{used_of};
ghost use Rattle.writing_plans.specs.Plans.{plan_paper, stopped, plan_by, placed_by};

use diag::NetDiagData;
use lent::fits;
use limits::{counts_fit, lengths_fit};
use refusal::Fault;
use route64::Route64;
use sizes::{fixed_count, total_size};
use used::{children_used, counts_in};
use writing_walks::{Lists, Plan, Prefixes, Used};

// How many rows of each table a record uses, of as many as are lent, and with what each table's pass begins; `room` is the length of the output.
#[tactic(auto, unfolding(crate::specs::Used::used_of, crate::specs::Used::least))]
pub fn count_used(
    r: NetDiagData,
    bytes: usize,
    prefixes: usize,
    routes: usize,
    borders: usize,
    children: usize,
    lists: usize,
    room: usize,
) -> Used
    ensures { result ≡ used_of r bytes prefixes routes borders children lists room }
{
    let c = counts_in(r.network_data);
    Used {
        bytes,
        room,
        prefixes_lent: prefixes,
        routes_lent: routes,
        borders_lent: borders,
        children_lent: children,
        lists_lent: lists,
        prefixes: c.prefixes.min(prefixes),
        routes: c.has_routes.min(routes),
        borders: c.border_routers.min(borders),
        children: children_used(r.child_table, children),
        lists: r.child_ipv6_addresses.min(lists),
        no_prefixes: Prefixes {
            routes: 0,
            borders: 0,
            size: 0,
            fits: true,
        },
        no_lists: Lists {
            bytes,
            short: true,
            fits: true,
            size: 0,
        },
        fits: true,
    }
}

fn stop(fault: Fault) -> Plan
    ensures { plan_paper result ≡ stopped (fault_number fault) }
{
    Plan {
        answer: refusal::refuse(fault, 0),
        go: false,
        prefixes: 0,
        network: 0,
        children: 0,
        lists: 0,
    }
}

// Not 10.
fn is_small(size: usize, entries: usize, lists: usize) -> bool
    requires { entries ≤ 16 }
    ensures { result ≡ pick (leb size most_bytes) (leb (entries + lists) most_entries) false }
{
    size <= refusal::MAX_BYTES && lists <= refusal::MAX_ENTRIES - entries
}

// 11, or how many bytes and rows.
fn placed(size: usize, u: Used, p: Prefixes) -> Plan
    ensures { plan_paper result ≡ placed_by size u p }
{
    if size > u.room {
        return stop(Fault::NoRoom);
    }
    Plan {
        answer: Ok(size),
        go: true,
        prefixes: u.prefixes,
        network: p.size,
        children: u.children,
        lists: u.lists,
    }
}

// The plan by what one pass over each table found: p of the prefixes, h, b and c of the HasRoute, BorderRouter and child rows, ls of the address lists.
// Refusals, all at place 0: 13, 12, 15, 10, 11.
pub fn plan_by(
    r: NetDiagData,
    t: Route64,
    u: Used,
    p: Prefixes,
    h: bool,
    b: bool,
    c: bool,
    ls: Lists,
) -> Plan
    ensures { plan_paper result ≡ plan_by r t u p h b c ls }
{
    let short = lengths_fit(r, ls);
    let few = counts_fit(r.network_data);
    let fit = fits(r, t, u, p, h, b, c, ls);
    let size = total_size(r, t, p, ls);
    let small = is_small(size, fixed_count(r), u.lists);
    if !short {
        return stop(Fault::ValueTooLong);
    }
    if !few {
        return stop(Fault::TooManyRows);
    }
    if !fit {
        return stop(Fault::Unwritable);
    }
    if !small {
        return stop(Fault::ResultTooLarge);
    }
    placed(size, u, p)
}
