// Rows of a payload's child table, paired by child ID with those of its address lists that are of the router that its MAC Address names.
#![tactic(auto)]

ghost use Rattle.std.specs.Prelude.{◌≡◌, ◌/◌, ◌≤◌, ◌<◌, length};
ghost use Rattle.refusal.specs.Sizes.{most_bytes};
ghost use Rattle.refusal.specs.Output.{put, output, emit};
ghost use Rattle.refusal.specs.Results.{answer_of, found_of, option_of};
ghost use Rattle.tlv.specs.Entries.{framing};
ghost use Rattle.tlv_last.specs.Last.{last_value};
ghost use Rattle.pair_rule.specs.Pairing.{judged};
ghost use Rattle.pairing.specs.Payload.{codes, row_pairing};
ghost use Rattle.pairing.specs.Loops.{own_in, is_own, unclear_without, row_id_at, list_rloc_of, rows_of, lists_of, keys_of, Counts, Places, codes_by};

use pair_rule::{Pairing, counts, judge};
use refusal::{Fault, Refusal};

// For each child ID how many lists that count have it, and the number of the last of them among all lists.
#[derive(Clone, Copy)]
struct Lists {
    count: [u16; 512],
    place: [u16; 512],
}

// A payload's own MAC Address, its last.
fn own_mac(payload: &[u8]) -> Option<u16>
    ensures { option_of result ≡ own_in (last_value 1 payload.now) }
{
    wire::read_u16(tlv_last::last_value(payload, diag_rules::MAC_ADDRESS), 0).ok()
}

// Whether an address list of that RLOC16 counts.
#[tactic(auto, unfolding(crate::specs::Loops::is_own))]
fn is_own(own: Option<u16>, rloc16: u16) -> bool
    ensures { result ≡ is_own (option_of own) rloc16 }
{
    own.is_some_and(|mac| counts(mac, rloc16))
}

// The same as `judge`, and unclear where the payload has no MAC Address.
#[tactic(auto, unfolding(crate::specs::Loops::unclear_without))]
fn judge_own(own: Option<u16>, rows: u16, lists: u16, place: u16) -> Pairing
    ensures { result ≡ unclear_without (option_of own) (judged rows lists place) }
{
    match own {
        Some(_) => judge(rows, lists, place),
        None => Pairing::Unclear,
    }
}

// The child ID of row k of a child table, 0 where there is no such row.
fn row_id(table: &[u8], k: usize) -> usize
    ensures { (result ≡ row_id_at table.now k) × (result < 512) }
{
    match diag_rows::child_row(table, k) {
        Ok(Some(row)) => row.child_id as usize,
        Ok(None) => 0,
        Err(_) => 0,
    }
}

// The RLOC16 of an address list, 0 where the value is none.
fn list_rloc16(value: &[u8]) -> u16
    ensures { result ≡ list_rloc_of value.now }
{
    match diag_rows::decode_child_ipv6_addresses(value, 0) {
        Ok(list) => list.rloc16,
        Err(_) => 0,
    }
}

// How often each child ID stands in a child table.
fn count_rows(table: &[u8]) -> [u16; 512]
    requires { length table.now ≤ most_bytes }
    ensures { Counts result (rows_of table.now) }
{
    let mut count = [0u16; 512];
    for k in 0..table.len() / diag_rules::CHILD_ENTRY_LEN {
        count[row_id(table, k)] += 1;
    }
    count
}

// How many lists that count have each child ID, and the number of the last of them among all: a list that does not count has its number too.
fn count_lists(payload: &[u8], own: Option<u16>) -> Lists
    requires { length payload.now ≤ most_bytes }
    ensures { Counts result.count (keys_of (option_of own) (lists_of (framing payload.now).entries)) × Places result.place (keys_of (option_of own) (lists_of (framing payload.now).entries)) }
{
    let mut count = [0u16; 512];
    let mut place = [0u16; 512];
    let mut counted: u16 = 0;
    let mut others: u16 = 0;
    for entry in tlv::entries(payload) {
        if entry.ty == diag_rules::CHILD_IPV6_ADDRESSES {
            let rloc16 = list_rloc16(entry.value);
            if is_own(own, rloc16) {
                let id = (rloc16 % 512) as usize;
                place[id] = counted + others;
                count[id] += 1;
                counted += 1;
            } else {
                others += 1;
            }
        }
    }
    Lists { count, place }
}

// A number for each row of a table, from the start of out on.
fn write_codes(table: &[u8], own: Option<u16>, rows: [u16; 512], lists: Lists, out: &mut [u16])
    requires { length table.now / 3 ≤ length out.old }
    ensures { out.new ≡ put out.old 0 (codes_by (option_of own) rows lists.count lists.place (rows_of table.now)) }
{
    for k in 0..table.len() / diag_rules::CHILD_ENTRY_LEN {
        let id = row_id(table, k);
        out[k] = judge_own(own, rows[id], lists.count[id], lists.place[id]).code();
    }
}

// A number for each row of the last child table, in row order, at the start of out: `Pairing::from_code` says what each means. Refusals: all
// that the decode of the payload refuses, then 11.
#[tactic(auto, using(laws::proofs::Emits::emit_refused, crate::proofs::Payloads::codes_refused))]
pub fn pair(payload: &[u8], out: &mut [u16]) -> Result<usize, Refusal>
    ensures { output (answer_of result) out.new ≡ emit (codes payload.now) out.old }
{
    diag_entries::check_values(payload)?; // before the room is looked at
    let table = tlv_last::last_value(payload, diag_rules::CHILD_TABLE);
    let n = table.len() / diag_rules::CHILD_ENTRY_LEN;
    if n > out.len() {
        return refusal::refuse(Fault::NoRoom, 0);
    }
    let own = own_mac(payload);
    write_codes(
        table,
        own,
        count_rows(table),
        count_lists(payload, own),
        out,
    );
    Ok(n)
}

// What is said of row k of the last child table, from 0. Refusals: all that the decode of the payload refuses.
pub fn pair_row(payload: &[u8], k: usize) -> Result<Option<Pairing>, Refusal>
    ensures { found_of result ≡ row_pairing k payload.now }
{
    diag_entries::check_values(payload)?;
    let table = tlv_last::last_value(payload, diag_rules::CHILD_TABLE);
    if k >= table.len() / diag_rules::CHILD_ENTRY_LEN {
        return Ok(None);
    }
    let id = row_id(table, k);
    let rows = count_rows(table);
    let own = own_mac(payload);
    let lists = count_lists(payload, own);
    Ok(Some(judge_own(own, rows[id], lists.count[id], lists.place[id])))
}
