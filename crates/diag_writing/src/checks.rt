// The lent tables are gone through once, before anything is written: whether their rows fit, and how many bytes they take.
ghost use Rattle.std.specs.Prelude.{◌≡◌, false, ◌≤◌};
ghost use Rattle.refusal.specs.Answer.{pick};
ghost use Rattle.refusal.specs.Each.{all};
ghost use Rattle.tables.specs.Fold.{fold};
ghost use Rattle.network_writing.specs.Fits.{context_fits, route_fits, border_fits};
ghost use Rattle.network_writing.specs.Tables.{context_of};
ghost use Rattle.value_writing.specs.Fits.{child_fits};
ghost use Rattle.diag_writing.specs.Checks.{grown, entry_fits, passed_prefix, list_fits_in, passed_list};
ghost use Rattle.writing_plans.specs.Used.{no_prefixes, no_lists};

use crate::prefixes::value_size;
use crate::values::child_fits;
use diag_rows::{ChildIpv6AddrInfo, ChildTableEntry};
use network_data::{BorderRouterEntry, HasRouteEntry, PrefixEntry, SixLowPanContext};
use writing_walks::{Lists, Prefixes};

// A sum that stays once it is over the size of a payload.
#[tactic(auto, unfolding(crate::specs::Checks::grown))]
fn grow(sum: usize, n: usize) -> usize
    requires { n ≤ 65539 }
    ensures { result ≡ grown sum n }
{
    if sum > refusal::MAX_BYTES {
        sum
    } else {
        sum + n
    }
}

#[tactic(auto, unfolding(network_writing::specs::Fits::context_fits))]
fn context_fits(x: Option<SixLowPanContext>) -> bool
    ensures { result ≡ context_fits (context_of x) }
{
    x.is_none_or(|c| c.context_id <= 15)
}

// A prefix that has few enough rows, fits its length byte, and has a context that fits.
fn entry_fits(e: PrefixEntry) -> bool
    ensures { result ≡ entry_fits e }
{
    e.has_routes <= network_data::MAX_HAS_ROUTES
        && e.border_routers <= network_data::MAX_BORDER_ROUTERS
        && context_fits(e.six_low_pan_context)
        && value_size(e) <= 255
}

#[tactic(auto, unfolding(crate::specs::Checks::passed_prefix), using(crate::proofs::TableChecks::entry_fits_lem))]
fn pass_prefix(f: Prefixes, e: PrefixEntry) -> Prefixes
    ensures { result ≡ passed_prefix f e }
{
    if f.fits
        && f.routes <= network_data::MAX_HAS_ROUTES
        && f.borders <= network_data::MAX_BORDER_ROUTERS
        && entry_fits(e)
    {
        Prefixes {
            routes: f.routes + e.has_routes,
            borders: f.borders + e.border_routers,
            size: grow(f.size, 2 + value_size(e)),
            fits: true,
        }
    } else {
        Prefixes {
            routes: 0,
            borders: 0,
            size: 0,
            fits: false,
        }
    }
}

// In n lent bytes.
#[tactic(auto, unfolding(crate::specs::Checks::list_fits_in))]
fn list_fits(x: ChildIpv6AddrInfo, n: usize) -> bool
    ensures { result ≡ list_fits_in n x }
{
    x.child_id == x.rloc16 % 512 && x.len % 16 == 0 && x.start <= n && x.len <= n - x.start
}

fn still_fits(f: Lists, x: ChildIpv6AddrInfo) -> bool
    ensures { result ≡ pick f.fits (list_fits_in f.bytes x) false }
{
    f.fits && list_fits(x, f.bytes)
}

fn pass_list(f: Lists, x: ChildIpv6AddrInfo) -> Lists
    ensures { result ≡ passed_list f x }
{
    let fits = still_fits(f, x);
    if x.len > 65533 {
        return Lists {
            bytes: f.bytes,
            short: false,
            fits,
            size: f.size,
        };
    }
    Lists {
        bytes: f.bytes,
        short: f.short,
        fits,
        size: grow(f.size, tlv_writing::entry_size(2 + x.len)),
    }
}

pub(crate) fn routes_fit(table: &[HasRouteEntry]) -> bool
    ensures { result ≡ all route_fits table.now }
{
    table.iter().all(|h| h.router_preference <= 3)
}

pub(crate) fn borders_fit(table: &[BorderRouterEntry]) -> bool
    ensures { result ≡ all border_fits table.now }
{
    table.iter().all(|b| b.prefix_preference <= 3)
}

pub(crate) fn children_fit(table: &[ChildTableEntry]) -> bool
    ensures { result ≡ all child_fits table.now }
{
    table.iter().all(|c| child_fits(*c))
}

#[tactic(auto, unfolding(tables::specs::Fold::fold), using(tables::specs::Fold::fold_more))]
pub(crate) fn pass_prefixes(table: &[PrefixEntry]) -> Prefixes
    ensures { result ≡ fold passed_prefix no_prefixes table.now }
{
    let mut f = Prefixes {
        routes: 0,
        borders: 0,
        size: 0,
        fits: true,
    };
    for e in table {
        f = pass_prefix(f, *e);
    }
    f
}

// The parts of the lists are those of so many lent bytes.
#[tactic(auto, unfolding(tables::specs::Fold::fold), using(tables::specs::Fold::fold_more))]
pub(crate) fn pass_lists(table: &[ChildIpv6AddrInfo], bytes: usize) -> Lists
    ensures { result ≡ fold passed_list (no_lists bytes) table.now }
{
    let mut f = Lists {
        bytes,
        short: true,
        fits: true,
        size: 0,
    };
    for x in table {
        f = pass_list(f, *x);
    }
    f
}
