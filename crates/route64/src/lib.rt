// Route64 (type 5 of a network-diagnostic payload; decode.rs, model.rs): the routers that its mask assigns, each with its route.
#![tactic(auto)]

ghost use Rattle.std.specs.Prelude.{◌≡◌, true, List, ℕ, ◌≤◌, length};
ghost use Rattle.refusal.specs.Answer.{on_given, then_do};
ghost use Rattle.refusal.specs.Numbered.{nth};
ghost use Rattle.refusal.specs.Results.{answer_of, found_of, option_of};
ghost use Rattle.diag_rules.specs.Mask.{routes_fit};
ghost use Rattle.diag_rules.specs.Rule.{value_of};
ghost use Rattle.route64.specs.Routes.{route_row, route_rows, route_of, table, routes, zero_routes};

use refusal::Refusal;

// The routes stand after the sequence and the mask.
const ROUTES_AT: usize = 1 + diag_rules::ROUTER_ID_MASK_LEN;

// One assigned router of a Route64.
#[derive(Clone, Copy)]
pub struct RouteDataEntry {
    pub router_id: u8,
    pub outgoing_link_quality: u8,
    pub incoming_link_quality: u8,
    pub route_cost: u8,
}

// The rows are the first `count` of `route_data`, in mask order; those after them are zeros.
#[derive(Clone, Copy)]
pub struct Route64 {
    pub id_sequence: u8,
    pub mask: [u8; 8],
    pub count: usize,
    pub route_data: [RouteDataEntry; 64],
}

impl Default for Route64 {
    ghost is_default = { λ r. r ≡ zero_routes };

    // Zeros.
    fn default() -> Route64 {
        Route64 {
            id_sequence: 0,
            mask: [0; 8],
            count: 0,
            route_data: [route_row(0, 0); 64],
        }
    }
}

// Type 5: a router and its route byte.
fn route_row(router: u8, b: u8) -> RouteDataEntry
    ensures { result ≡ route_row router b }
{
    RouteDataEntry {
        router_id: router,
        outgoing_link_quality: b / 64 % 4,
        incoming_link_quality: b / 16 % 4,
        route_cost: b % 16,
    }
}

// The rows of a Route64 that keeps its rule: of each mask byte the bits that are set, the high bit first.
fn route_rows(v: &[u8]) -> [RouteDataEntry; 64]
    requires { routes_fit v.now ≡ true }
    ensures { result ≡ table (route_rows v.now) }
{
    let mut rows = [route_row(0, 0); 64];
    let mut n: usize = 0;
    for j in 0..diag_rules::ROUTER_ID_MASK_LEN {
        let mut left = v[1 + j];
        while left != 0 {
            let bit = left.leading_zeros() as u8;
            rows[n] = route_row((j as u8) * 8 + bit, v[ROUTES_AT + n]);
            n += 1;
            left -= 128u8 >> bit;
        }
    }
    rows
}

// The Route64 of a value that keeps its rule.
fn route64_of(v: &[u8]) -> Route64
    requires { (9 ≤ length v.now) × (routes_fit v.now ≡ true) }
    ensures { result ≡ routes (route_of v.now) }
{
    Route64 {
        id_sequence: v[0],
        mask: [v[1], v[2], v[3], v[4], v[5], v[6], v[7], v[8]],
        count: v.len() - ROUTES_AT,
        route_data: route_rows(v),
    }
}

// A Route64 with all its rows. Refusals: those of `diag_rules::check_value`.
pub fn decode_route64(value: &[u8], place: usize) -> Result<Route64, Refusal>
    ensures { answer_of result ≡ on_given routes (on_given route_of (value_of 5 place value.now)) }
{
    diag_rules::check_value(diag_rules::ROUTE64, value, place)?;
    Ok(route64_of(value))
}

// Row k of a Route64 whose mask is there.
fn route_at(v: &[u8], k: usize) -> Option<RouteDataEntry>
    requires { 9 ≤ length v.now }
    ensures { option_of result ≡ nth (route_rows v.now) k }
{
    let mut ahead: usize = k;
    let mut at: usize = ROUTES_AT;
    for j in 0..diag_rules::ROUTER_ID_MASK_LEN {
        let mut bits = v[1 + j];
        while bits != 0 {
            if v.len() <= at {
                return None;
            }
            let bit = bits.leading_zeros() as u8;
            if ahead == 0 {
                return Some(route_row((j as u8) * 8 + bit, v[at]));
            }
            ahead -= 1;
            at += 1;
            bits -= 128u8 >> bit;
        }
    }
    None
}

// Row k of a Route64, from 0 on. Refusals: those of `diag_rules::check_value` at place 0.
pub fn route64_row(value: &[u8], k: usize) -> Result<Option<RouteDataEntry>, Refusal>
    ensures { found_of result ≡ then_do (value_of 5 0 value.now) (λ (v : List ℕ). nth (route_rows v) k) }
{
    diag_rules::check_value(diag_rules::ROUTE64, value, 0)?;
    Ok(route_at(value, k))
}
