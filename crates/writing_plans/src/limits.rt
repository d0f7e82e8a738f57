// 13 and 12: the lengths that a record names, and its counts.
ghost use Rattle.std.specs.Prelude.{◌≡◌};
ghost use Rattle.refusal.specs.Results.{option_of};
ghost use Rattle.record_writing.specs.Fits.{passes};
ghost use Rattle.record_writing.specs.Lent.{opt_counts};
ghost use Rattle.record_writing.specs.Written.{short_part, parts_short, counts_fit};
ghost use Rattle.writing_plans.specs.Tests.{lengths_by};

use diag::{NetDiagData, NetworkDataPart};
use diag_rows::Part;
use writing_walks::Lists;

#[tactic(auto, unfolding(record_writing::specs::Fits::passes))]
fn short(x: Option<Part>) -> bool
    ensures { result ≡ passes short_part (option_of x) }
{
    x.is_none_or(|p| p.len <= tlv::MAX_EXTENDED_TLV_LENGTH)
}

#[tactic(auto, unfolding(record_writing::specs::Written::parts_short, refusal::specs::Each::all))]
fn parts_short(r: NetDiagData) -> bool
    ensures { result ≡ parts_short r }
{
    short(r.ext_mac_addr)
        && short(r.addresses)
        && short(r.child_table)
        && short(r.channel_pages)
        && short(r.type_list)
}

#[tactic(auto, unfolding(crate::specs::Tests::lengths_by))]
pub(crate) fn lengths_fit(r: NetDiagData, ls: Lists) -> bool
    ensures { result ≡ lengths_by r ls }
{
    parts_short(r) && ls.short
}

#[tactic(auto, unfolding(record_writing::specs::Fits::passes, record_writing::specs::Written::counts_fit))]
pub(crate) fn counts_fit(x: Option<NetworkDataPart>) -> bool
    ensures { result ≡ passes counts_fit (opt_counts x) }
{
    x.is_none_or(|n| {
        n.counts.prefixes <= network_data::MAX_PREFIXES
            && n.counts.has_routes <= network_data::MAX_HAS_ROUTES
            && n.counts.border_routers <= network_data::MAX_BORDER_ROUTERS
    })
}
