// The plan: what the passes over the tables lead to, and which record is written by it.
ghost use Rattle.std.specs.Prelude.{◌≡◌};
ghost use Rattle.diag_writing.specs.Plans.{Judged, nothing, chosen_of};

use diag::NetDiagData;
use route64::Route64;
use writing_walks::{Lists, Plan, Prefixes, Used};

// By what one pass over each table found.
pub(crate) fn judge(
    r: NetDiagData,
    t: Route64,
    u: Used,
    p: Prefixes,
    h: bool,
    b: bool,
    c: bool,
    ls: Lists,
) -> Plan
    ensures { Judged r t u p h b c ls result }
{
    writing_plans::plan_by(r, t, u, p, h, b, c, ls)
}

fn empty() -> NetDiagData
    ensures { result ≡ nothing }
{
    NetDiagData {
        ext_mac_addr: None,
        mac_addr: None,
        mode: None,
        timeout: None,
        connectivity: None,
        route64: None,
        leader_data: None,
        network_data: None,
        addresses: None,
        mac_counters: None,
        battery_level: None,
        supply_voltage: None,
        child_table: None,
        channel_pages: None,
        type_list: None,
        eui64: None,
        child_ipv6_addresses: 0,
    }
}

// The record that is written: one without fields where nothing is.
pub(crate) fn chosen(p: Plan, r: NetDiagData) -> NetDiagData
    ensures { result ≡ chosen_of p r }
{
    if p.go { r } else { empty() }
}
