// The address lists (type 30) among the entries of a diagnostic payload (decode.rs).
#![tactic(auto)]

ghost use Rattle.std.specs.Prelude.{◌≡◌, ◌+◌, ◌≤◌, length};
ghost use Rattle.refusal.specs.Answer.{on_given};
ghost use Rattle.refusal.specs.Numbered.{nth};
ghost use Rattle.refusal.specs.Results.{answer_of, found_of, option_of};
ghost use Rattle.tlv_last.specs.Last.{spot};
ghost use Rattle.diag_entries.specs.Parts.{all_of};
ghost use Rattle.diag_entries.specs.Lists.{child_list};
ghost use Rattle.tlv.specs.Walk.{entries_from};
ghost use Rattle.child_lists.specs.Answers.{list_paper};
ghost use Rattle.child_lists.specs.Loops.{list_at};

use diag_rows::ChildIpv6AddrInfo;
use refusal::Refusal;
use tlv_last::Spot;

// Entry k of type 30 among those from a place on, where an entry begins.
fn nth_child_list(payload: &[u8], place: usize, k: usize) -> Option<Spot>
    ensures { option_of result ≡ on_given spot (nth (all_of 30 (entries_from payload.now place)) k) }
{
    let mut left: usize = k;
    for entry in tlv::entries_from(payload, place) {
        if entry.ty == diag_rules::CHILD_IPV6_ADDRESSES {
            if left == 0 {
                return Some(Spot {
                    place: entry.place,
                    start: entry.start,
                    len: entry.value.len(),
                });
            }
            left -= 1;
        }
    }
    None
}

// The first entry of type 30 from a place on, where an entry begins; whether or not the payload is refused.
pub fn next_child_list(payload: &[u8], place: usize) -> Option<Spot>
    ensures { option_of result ≡ on_given spot (nth (all_of 30 (entries_from payload.now place)) 0) }
{
    nth_child_list(payload, place, 0)
}

// The address list of type 30 that stands at a spot of the payload; its addresses as a part of the payload too.
fn list_at(payload: &[u8], spot: Spot) -> Result<ChildIpv6AddrInfo, Refusal>
    requires { spot.start + spot.len ≤ length payload.now }
    ensures { on_given (list_paper payload.now) (answer_of result) ≡ list_at payload.now spot.place spot.start spot.len }
{
    let value = &payload[spot.start..spot.start + spot.len];
    let list = diag_rows::decode_child_ipv6_addresses(value, spot.place)?;
    Ok(ChildIpv6AddrInfo {
        rloc16: list.rloc16,
        child_id: list.child_id,
        start: spot.start + list.start,
        len: list.len,
    })
}

// Address list k of a payload, from 0: the child's RLOC16 and ID, and where in the payload its addresses stand. Refusals: those of `diag_entries::check_values`.
pub fn child_list(payload: &[u8], k: usize) -> Result<Option<ChildIpv6AddrInfo>, Refusal>
    ensures { on_given (list_paper payload.now) (found_of result) ≡ child_list k payload.now }
{
    diag_entries::check_values(payload)?;
    match nth_child_list(payload, 0, k) {
        Some(spot) => Ok(Some(list_at(payload, spot)?)),
        None => Ok(None),
    }
}
