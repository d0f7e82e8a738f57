// The refusals of a Network Data value: the first that is met in wire order, and the counts of what is passed.
ghost use Rattle.std.specs.Prelude.{◌≡◌, ◌<◌, length};
ghost use Rattle.refusal.specs.Results.{answer_of};
ghost use Rattle.network_framing.specs.Frame.{walk_in};
ghost use Rattle.network_data.specs.Rules.{join, rule, check_in, check_prefix, check_value};

use crate::{
    BORDER_ROUTER_ENTRY_LEN, Counts, HAS_ROUTE_ENTRY_LEN, MAX_BORDER_ROUTERS, MAX_HAS_ROUTES,
    MAX_PREFIXES, NETWORK_DATA_6LOWPAN_CONTEXT, NETWORK_DATA_BORDER_ROUTER, NETWORK_DATA_HAS_ROUTE,
    NETWORK_DATA_PREFIX,
};
use network_framing::{SubTlv, head_at};
use network_walker::{after_first, first_tlv};
use refusal::{Fault, Refusal, refuse};

// A list of len bytes in rows of so many; "a row list's length is tested before its room".
#[tactic(auto, unfolding(crate::specs::Rules::join))]
fn joined(had: usize, len: usize, size: usize, most: usize, place: usize) -> Result<usize, Refusal>
    requires { 0 < size }
    ensures { answer_of result ≡ join place had len size most }
{
    let n = len / size;
    let uneven = len % size != 0;
    if uneven {
        return refuse(Fault::BadLength, place);
    }
    if n > most || had > most - n {
        return refuse(Fault::TooManyRows, place);
    }
    Ok(had + n)
}

// The rule of one inner TLV.
#[tactic(auto, using(refusal::proofs::Papers::passes), unfolding(crate::specs::Rules::rule))]
fn inner_rule(c: Counts, ty: u8, len: usize, place: usize) -> Result<Counts, Refusal>
    ensures { answer_of result ≡ rule place c ty len }
{
    match ty {
        NETWORK_DATA_HAS_ROUTE => {
            let has_routes = joined(
                c.has_routes,
                len,
                HAS_ROUTE_ENTRY_LEN,
                MAX_HAS_ROUTES,
                place,
            )?;
            Ok(Counts { has_routes, ..c })
        }
        NETWORK_DATA_BORDER_ROUTER => {
            let border_routers = joined(
                c.border_routers,
                len,
                BORDER_ROUTER_ENTRY_LEN,
                MAX_BORDER_ROUTERS,
                place,
            )?;
            Ok(Counts {
                border_routers,
                ..c
            })
        }
        NETWORK_DATA_6LOWPAN_CONTEXT if len != 2 => refuse(Fault::BadLength, place),
        _ => Ok(c),
    }
}

// The inner TLVs of a prefix, in wire order.
fn check_inner(s: &[u8], before: Counts, place: usize) -> Result<Counts, Refusal>
    ensures { answer_of result ≡ check_in place before (walk_in s.now 0 (length s.now)) }
{
    let mut rest = s;
    let mut c = before;
    loop {
        match first_tlv(rest) {
            SubTlv::End => return Ok(c),
            SubTlv::Cut => return refuse(Fault::ItemCut, place),
            SubTlv::Item { ty, len, .. } => {
                c = inner_rule(c, ty, len, place)?;
                rest = after_first(rest);
            }
        }
    }
}

// A prefix, by its value.
fn check_prefix(value: &[u8], before: Counts, place: usize) -> Result<Counts, Refusal>
    ensures { answer_of result ≡ check_prefix place value.now before 0 (length value.now) }
{
    if before.prefixes >= MAX_PREFIXES {
        return refuse(Fault::TooManyRows, place);
    }
    match head_at(value, 0, value.len()) {
        None => refuse(Fault::ItemCut, place),
        Some(at) => {
            let c = Counts {
                prefixes: before.prefixes + 1,
                ..before
            };
            check_inner(&value[at..], c, place)
        }
    }
}

// The TLVs of a value, in wire order.
pub(crate) fn check_items(s: &[u8], place: usize) -> Result<Counts, Refusal>
    ensures { answer_of result ≡ check_value place s.now }
{
    let mut rest = s;
    let mut c = Counts {
        prefixes: 0,
        has_routes: 0,
        border_routers: 0,
    };
    loop {
        match first_tlv(rest) {
            SubTlv::End => return Ok(c),
            SubTlv::Cut => return refuse(Fault::ItemCut, place),
            SubTlv::Item { ty, start, len } => {
                let value = &rest[start..start + len];
                if ty == NETWORK_DATA_PREFIX {
                    c = check_prefix(value, c, place)?;
                }
                rest = after_first(rest);
            }
        }
    }
}
