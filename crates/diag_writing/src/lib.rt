// The writer: a payload from a diagnostic record and its tables (document 02, One). Reading what it writes gives the record back.
#![tactic(auto)]

mod checks;
mod fields;
mod linked;
mod lists;
mod plan;
mod prefixes;
mod routers;
mod rows;
mod values;

ghost use Rattle.std.specs.Prelude.{◌≡◌, List, ℕ, length};
ghost use Rattle.refusal.specs.Output.{output, emit};
ghost use Rattle.refusal.specs.Results.{answer_of};
ghost use Rattle.record_writing.specs.Lent.{lent};
ghost use Rattle.record_writing.specs.Written.{written};
ghost use Rattle.diag_writing.specs.Plans.{Planned};

use checks::{borders_fit, children_fit, pass_lists, pass_prefixes, routes_fit};
use diag::NetDiagData;
use diag_rows::{ChildIpv6AddrInfo, ChildTableEntry};
use fields::{put_after, put_before, put_between};
use lists::put_lists;
use network_data::{BorderRouterEntry, HasRouteEntry, PrefixEntry};
use plan::{chosen, judge};
use prefixes::put_prefixes;
use refusal::Refusal;
use route64::Route64;
use rows::put_children;
use writing_plans::count_used;
use writing_walks::Plan;

// Each lent table is gone through once; then all that is refused is known. `bytes` is how many are lent, and `room` how many there is room for.
fn plan_for(
    net_diag: NetDiagData,
    bytes: usize,
    route64: Route64,
    prefixes: &[PrefixEntry],
    has_routes: &[HasRouteEntry],
    border_routers: &[BorderRouterEntry],
    children: &[ChildTableEntry],
    lists: &[ChildIpv6AddrInfo],
    room: usize,
) -> Plan
    ensures { (s : List ℕ) → length s ≡ bytes → Planned net_diag (lent s route64 prefixes.now has_routes.now border_routers.now children.now lists.now) room result }
{
    let u = count_used(
        net_diag,
        bytes,
        prefixes.len(),
        has_routes.len(),
        border_routers.len(),
        children.len(),
        lists.len(),
        room,
    );
    let p = pass_prefixes(&prefixes[..u.prefixes]);
    let h = routes_fit(&has_routes[..u.routes]);
    let b = borders_fit(&border_routers[..u.borders]);
    let c = children_fit(&children[..u.children]);
    let l = pass_lists(&lists[..u.lists], bytes);
    judge(net_diag, route64, u, p, h, b, c, l)
}

// A payload at the start of out: types ascending, one inner TLV of each kind for each prefix, none where it has no rows, stable and reserved bits
// clear. What the record keeps as parts lies in `bytes`; of the tables the first rows are written, as many as the record counts. Refusals, all at place 0:
// 13, 12, 15, 10, 11.
pub fn write(
    net_diag: NetDiagData,
    bytes: &[u8],
    route64: Route64,
    prefixes: &[PrefixEntry],
    has_routes: &[HasRouteEntry],
    border_routers: &[BorderRouterEntry],
    children: &[ChildTableEntry],
    lists: &[ChildIpv6AddrInfo],
    out: &mut [u8],
) -> Result<usize, Refusal>
    ensures { output (answer_of result) out.new ≡ emit (written net_diag (lent bytes.now route64 prefixes.now has_routes.now border_routers.now children.now lists.now)) out.old }
{
    let p = plan_for(
        net_diag,
        bytes.len(),
        route64,
        prefixes,
        has_routes,
        border_routers,
        children,
        lists,
        out.len(),
    );
    let r = chosen(p, net_diag);
    let a = put_before(r, bytes, route64, p.network, out);
    let b = put_prefixes(&prefixes[..p.prefixes], has_routes, border_routers, out, a);
    let c = put_between(r, bytes, out, b);
    let d = put_children(&children[..p.children], out, c);
    let e = put_after(r, bytes, out, d);
    put_lists(&lists[..p.lists], bytes, out, e);
    p.answer
}
