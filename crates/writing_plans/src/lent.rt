// 15: what a record names and counts is lent, and fits.
ghost use Rattle.std.specs.Prelude.{◌≡◌};
ghost use Rattle.refusal.specs.Results.{option_of};
ghost use Rattle.diag.specs.Answers.{opt_connectivity};
ghost use Rattle.value_writing.specs.Fits.{connectivity_fits};
ghost use Rattle.record_writing.specs.Fits.{passes};
ghost use Rattle.record_writing.specs.Lent.{opt_counts};
ghost use Rattle.writing_plans.specs.Tests.{inside_by, parts_inside_by, route_by, tables_by, whole_by, children_by, eight_by, lists_by, bytes_by, links_by, fits_by};

use crate::linked::connectivity_fits;
use crate::routers::route64_fits;
use diag::{NetDiagData, NetworkDataPart};
use diag_rows::Part;
use network_data::Counts;
use route64::Route64;
use writing_walks::{Lists, Prefixes, Used};

#[tactic(auto, unfolding(record_writing::specs::Fits::passes))]
fn inside(x: Option<Part>, n: usize) -> bool
    ensures { result ≡ passes (inside_by n) (option_of x) }
{
    x.is_none_or(|p| p.start <= n && p.len <= n - p.start)
}

#[tactic(auto, unfolding(crate::specs::Tests::parts_inside_by, refusal::specs::Each::all))]
fn parts_inside(r: NetDiagData, n: usize) -> bool
    ensures { result ≡ parts_inside_by r n }
{
    inside(r.ext_mac_addr, n)
        && inside(r.addresses, n)
        && inside(r.channel_pages, n)
        && inside(r.type_list, n)
        && inside(r.eui64, n)
}

#[tactic(auto, unfolding(record_writing::specs::Fits::passes, crate::specs::Tests::route_by, crate::specs::Tests::links_by))]
fn links_fit(r: NetDiagData, t: Route64) -> bool
    ensures { result ≡ links_by r t }
{
    r.connectivity.is_none_or(connectivity_fits) && (r.route64.is_none() || route64_fits(t))
}

// The tables are long enough, their rows fit, and the prefixes ask for all of them.
#[tactic(auto, unfolding(crate::specs::Tests::tables_by))]
fn rows_agree(u: Used, p: Prefixes, h: bool, b: bool, c: Counts) -> bool
    ensures { result ≡ tables_by u p h b c }
{
    c.prefixes <= u.prefixes_lent
        && c.has_routes <= u.routes_lent
        && c.border_routers <= u.borders_lent
        && p.fits
        && p.routes == c.has_routes
        && p.borders == c.border_routers
        && h
        && b
}

#[tactic(auto, unfolding(record_writing::specs::Fits::passes))]
fn tables_agree(x: Option<NetworkDataPart>, u: Used, p: Prefixes, h: bool, b: bool) -> bool
    ensures { result ≡ passes (tables_by u p h b) (opt_counts x) }
{
    x.is_none_or(|n| rows_agree(u, p, h, b, n.counts))
}

#[tactic(auto, unfolding(record_writing::specs::Fits::passes, crate::specs::Tests::children_by))]
fn children_agree(x: Option<Part>, u: Used, c: bool) -> bool
    ensures { result ≡ passes (children_by u c) (option_of x) }
{
    x.is_none_or(|p| p.len % 3 == 0 && p.len / 3 <= u.children_lent && c)
}

// What lies in the lent bytes.
#[tactic(auto, unfolding(record_writing::specs::Fits::passes, crate::specs::Tests::lists_by, crate::specs::Tests::bytes_by))]
fn bytes_fit(r: NetDiagData, u: Used, ls: Lists) -> bool
    ensures { result ≡ bytes_by r u ls }
{
    parts_inside(r, u.bytes)
        && r.addresses.is_none_or(|p| p.len % 16 == 0)
        && r.eui64.is_none_or(|p| p.len == 8)
        && r.child_ipv6_addresses <= u.lists_lent
        && ls.fits
}

#[tactic(auto, unfolding(crate::specs::Tests::fits_by))]
pub(crate) fn fits(
    r: NetDiagData,
    t: Route64,
    u: Used,
    p: Prefixes,
    h: bool,
    b: bool,
    c: bool,
    ls: Lists,
) -> bool
    ensures { result ≡ fits_by r t u p h b c ls }
{
    bytes_fit(r, u, ls)
        && links_fit(r, t)
        && tables_agree(r.network_data, u, p, h, b)
        && children_agree(r.child_table, u, c)
}
