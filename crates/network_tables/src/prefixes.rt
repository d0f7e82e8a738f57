// The records of prefixes. Their cursor is a place, from which the next prefix is looked for.
ghost use Rattle.std.specs.Prelude.{◌≡◌, ◌+◌, ◌≤◌, ◌<◌, length, take, drop};
ghost use Rattle.refusal.specs.Answer.{absent};
ghost use Rattle.refusal.specs.Results.{option_of};
ghost use Rattle.network_framing.specs.Frame.{walk_in};
ghost use Rattle.network_data.specs.Decode.{context_at, places_in, last_context, prefix_at, padded, entry_of};
ghost use Rattle.network_tables.specs.Cursor.{span_of, Whole, SpanHere, entry_at, span_end};

use crate::records::Record;
use network_data::{
    BORDER_ROUTER_ENTRY_LEN, HAS_ROUTE_ENTRY_LEN, NETWORK_DATA_6LOWPAN_CONTEXT,
    NETWORK_DATA_BORDER_ROUTER, NETWORK_DATA_HAS_ROUTE, NETWORK_DATA_PREFIX, PrefixEntry,
    SixLowPanContext,
};
use network_framing::{SubTlv, sub_at, sub_in};

// Where a prefix's value starts and ends.
#[derive(Clone, Copy)]
pub(crate) struct Span {
    pub(crate) start: usize,
    pub(crate) end: usize,
}

fn find_prefix(s: &[u8], from: usize) -> Span
    ensures { result ≡ span_of (walk_in s.now from (length s.now)).items }
{
    let mut at = from;
    while let SubTlv::Item { ty, start, len } = sub_at(s, at) {
        at = start + len;
        if ty == NETWORK_DATA_PREFIX {
            return Span { start, end: at };
        }
    }
    Span { start: 0, end: 0 }
}

// n bytes, and zeros after them.
fn copy_bytes(s: &[u8], at: usize, n: usize) -> [u8; 32]
    requires { (n ≤ 32) × (at + n ≤ length s.now) }
    ensures { result ≡ padded (take n (drop at s.now)) }
{
    let mut a = [0; 32];
    a[..n].copy_from_slice(&s[at..at + n]);
    a
}

// The rows of a kind in all inner TLVs from a place on.
fn rows_in(s: &[u8], ty: u8, size: usize, from: usize, end: usize) -> usize
    requires { (end ≤ length s.now) × (0 < size) }
    ensures { result ≡ length (places_in ty size (walk_in s.now from end).items) }
{
    let mut at = from;
    let mut sum: usize = 0;
    while let SubTlv::Item { ty: t, start, len } = sub_in(s, at, end) {
        at = start + len;
        if t == ty {
            sum += len / size;
        }
    }
    sum
}

fn context_at(s: &[u8], at: usize) -> SixLowPanContext
    requires { at + 2 ≤ length s.now }
    ensures { result ≡ context_at s.now at }
{
    let b = s[at];
    SixLowPanContext {
        is_compress: b / 16 % 2 == 1,
        context_id: b % 16,
        context_length: s[at + 1],
    }
}

// The last context from a place on. One of another length, which a checked value has not, is passed over.
fn context_in(s: &[u8], from: usize, end: usize) -> Option<SixLowPanContext>
    requires { end ≤ length s.now }
    ensures { option_of result ≡ last_context s.now absent (walk_in s.now from end).items }
{
    let mut at = from;
    let mut x = None;
    while let SubTlv::Item { ty, start, len } = sub_in(s, at, end) {
        at = start + len;
        if ty == NETWORK_DATA_6LOWPAN_CONTEXT {
            if len == 2 {
                x = Some(context_at(s, start));
            }
        }
    }
    x
}

// The record of the prefix whose value stands there.
fn entry_at(s: &[u8], x: Span) -> PrefixEntry
    requires { Whole s.now x }
    ensures { result ≡ entry_of (prefix_at s.now x.start x.end) }
{
    let bits = s[x.start + 1];
    let n = (bits as usize + 7) / 8;
    let at = x.start + (2 + n);
    PrefixEntry {
        domain_id: s[x.start],
        prefix_bit_length: bits,
        prefix: copy_bytes(s, x.start + 2, n),
        six_low_pan_context: context_in(s, at, x.end),
        has_routes: rows_in(s, NETWORK_DATA_HAS_ROUTE, HAS_ROUTE_ENTRY_LEN, at, x.end),
        border_routers: rows_in(
            s,
            NETWORK_DATA_BORDER_ROUTER,
            BORDER_ROUTER_ENTRY_LEN,
            at,
            x.end,
        ),
    }
}

impl Record for PrefixEntry {
    type Cursor = usize;

    ghost start = { λ s. 0 };

    ghost here = { SpanHere };

    ghost read = { entry_at };

    ghost after = { span_end };

    fn first(_s: &[u8]) -> usize {
        0
    }

    fn record(s: &[u8], c: usize) -> PrefixEntry {
        entry_at(s, find_prefix(s, c))
    }

    fn next(s: &[u8], c: usize) -> usize {
        find_prefix(s, c).end
    }
}
