// Rows of Network Data and of a child table: each into an output that has room for it.
ghost use Rattle.std.specs.Prelude.{◌≡◌, ◌+◌, ◌≤◌, length};
ghost use Rattle.refusal.specs.Output.{put};
ghost use Rattle.refusal.specs.Each.{joined};
ghost use Rattle.network_writing.specs.Encode.{route_bytes, border_flags, more_flags, border_bytes};
ghost use Rattle.value_writing.specs.Encode.{child_bytes};

use crate::values::{child_bytes, weight};
use diag_rows::ChildTableEntry;
use network_data::{BorderRouterEntry, HasRouteEntry};

fn put_route(h: HasRouteEntry, out: &mut [u8], at: usize) -> usize
    requires { at + length (route_bytes h) ≤ length out.old }
    ensures { (result ≡ at + length (route_bytes h)) × (out.new ≡ put out.old at (route_bytes h)) }
{
    out[at] = (h.rloc16 / 256) as u8;
    out[at + 1] = (h.rloc16 % 256) as u8;
    out[at + 2] = h.router_preference % 4 * 64 + weight(h.is_nat64, 32);
    at + 3
}

fn border_flags(b: BorderRouterEntry) -> u8
    ensures { result ≡ border_flags b }
{
    b.prefix_preference % 4 * 64
        + weight(b.is_preferred, 32)
        + weight(b.is_slaac, 16)
        + weight(b.is_dhcp, 8)
        + weight(b.is_configure, 4)
        + weight(b.is_default_route, 2)
        + weight(b.is_on_mesh, 1)
}

fn more_flags(b: BorderRouterEntry) -> u8
    ensures { result ≡ more_flags b }
{
    weight(b.is_nd_dns, 128) + weight(b.is_dp, 64)
}

fn put_border(b: BorderRouterEntry, out: &mut [u8], at: usize) -> usize
    requires { at + length (border_bytes b) ≤ length out.old }
    ensures { (result ≡ at + length (border_bytes b)) × (out.new ≡ put out.old at (border_bytes b)) }
{
    out[at] = (b.rloc16 / 256) as u8;
    out[at + 1] = (b.rloc16 % 256) as u8;
    out[at + 2] = border_flags(b);
    out[at + 3] = more_flags(b);
    at + 4
}

fn put_child(c: ChildTableEntry, out: &mut [u8], at: usize) -> usize
    requires { at + length (child_bytes c) ≤ length out.old }
    ensures { (result ≡ at + length (child_bytes c)) × (out.new ≡ put out.old at (child_bytes c)) }
{
    let b = child_bytes(c);
    out[at] = b[0];
    out[at + 1] = b[1];
    out[at + 2] = b[2];
    at + 3
}

// Rows, one after the other.
pub(crate) fn put_routes(rows: &[HasRouteEntry], out: &mut [u8], mut at: usize) -> usize
    requires { at + length (joined route_bytes rows.now) ≤ length out.old }
    ensures { (result ≡ at + length (joined route_bytes rows.now)) × (out.new ≡ put out.old at (joined route_bytes rows.now)) }
{
    for row in rows {
        at = put_route(*row, out, at);
    }
    at
}

pub(crate) fn put_borders(rows: &[BorderRouterEntry], out: &mut [u8], mut at: usize) -> usize
    requires { at + length (joined border_bytes rows.now) ≤ length out.old }
    ensures { (result ≡ at + length (joined border_bytes rows.now)) × (out.new ≡ put out.old at (joined border_bytes rows.now)) }
{
    for row in rows {
        at = put_border(*row, out, at);
    }
    at
}

pub(crate) fn put_children(rows: &[ChildTableEntry], out: &mut [u8], mut at: usize) -> usize
    requires { at + length (joined child_bytes rows.now) ≤ length out.old }
    ensures { (result ≡ at + length (joined child_bytes rows.now)) × (out.new ≡ put out.old at (joined child_bytes rows.now)) }
{
    for row in rows {
        at = put_child(*row, out, at);
    }
    at
}
