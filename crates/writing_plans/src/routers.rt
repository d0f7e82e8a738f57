// 15, of Route64: its rows are those of its mask, and their fields fit.
ghost use Rattle.std.specs.Prelude.{◌≡◌, false, ◌≤◌, take};
ghost use Rattle.refusal.specs.Answer.{pick};
ghost use Rattle.refusal.specs.Each.{all};
ghost use Rattle.value_writing.specs.Fits.{route_row_fits, mask_agrees, route64_fits};
ghost use Rattle.record_writing.specs.Lent.{route_used};
ghost use Rattle.record_writing.specs.Written.{routes_counted};

use route64::{Route64, RouteDataEntry};

fn route_row_fits(r: RouteDataEntry) -> bool
    ensures { result ≡ route_row_fits r }
{
    r.outgoing_link_quality <= 3 && r.incoming_link_quality <= 3 && r.route_cost <= 15
}

// The rows are those of the mask's set bits, ascending; a mask byte that is zero is passed over.
fn mask_agrees(t: Route64) -> bool
    requires { t.count ≤ 64 }
    ensures { result ≡ mask_agrees (route_used t) }
{
    let mut n: usize = 0;
    let mut j: usize = 0;
    let mut left = t.mask[0];
    loop {
        if left == 0 {
            j += 1;
            if j == diag_rules::ROUTER_ID_MASK_LEN {
                return n == t.count;
            }
            left = t.mask[j];
        } else {
            if n >= t.count {
                return false;
            }
            let bit = u8::leading_zeros(left) as u8;
            let row = t.route_data[n];
            if row.router_id != (j as u8) * 8 + bit {
                return false;
            }
            n += 1;
            left -= 128u8 >> bit;
        }
    }
}

fn rows_fit(t: Route64) -> bool
    requires { t.count ≤ 64 }
    ensures { result ≡ all route_row_fits (take t.count t.route_data) }
{
    t.route_data[..t.count].iter().all(|r| route_row_fits(*r))
}

#[tactic(auto, unfolding(value_writing::specs::Fits::route64_fits))]
pub(crate) fn route64_fits(t: Route64) -> bool
    ensures { result ≡ pick (routes_counted t) (route64_fits (route_used t)) false }
{
    t.count <= 64 && mask_agrees(t) && rows_fit(t)
}
