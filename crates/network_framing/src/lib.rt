// The framing of Thread Network Data (the values of type 7 in decode.rs): what stands at a place, and where a prefix's inner TLVs begin.
#![tactic(auto)]

ghost use Rattle.std.specs.Prelude.{◌≡◌, length};
ghost use Rattle.network_framing.specs.Frame.{sub_in, head_at, sub_answer, head_answer};

// A TLV of Network Data: its type, and where its value starts and how long it is. Cut is refusal 5.
#[derive(Clone, Copy)]
pub enum SubTlv {
    Item { ty: u8, start: usize, len: usize },
    Cut,
    End,
}

// What stands at a place of s, before the place end. The step of every walk over TLVs.
pub fn sub_in(s: &[u8], at: usize, end: usize) -> SubTlv
    ensures { sub_answer result ≡ sub_in s.now at end }
{
    if end <= at {
        return SubTlv::End;
    }
    if s.len() < end {
        return SubTlv::Cut; // there is no byte past the last
    }
    if end - at < 2 {
        return SubTlv::Cut;
    }
    let len = s[at + 1] as usize;
    if len <= end - (at + 2) {
        return SubTlv::Item {
            ty: s[at] / 2,
            start: at + 2,
            len,
        };
    }
    SubTlv::Cut
}

// What stands at a place of s, up to the end of s.
pub fn sub_at(s: &[u8], at: usize) -> SubTlv
    ensures { sub_answer result ≡ sub_in s.now at (length s.now) }
{
    sub_in(s, at, s.len())
}

// Of a prefix whose value stands from start to end.
pub fn head_at(s: &[u8], start: usize, end: usize) -> Option<usize>
    ensures { head_answer result ≡ head_at s.now start end }
{
    if end <= start {
        return None;
    }
    if s.len() < end {
        return None; // there is no byte past the last
    }
    let n = end - start;
    if n < 2 {
        return None;
    }
    let need = 2 + (s[start + 1] as usize + 7) / 8;
    if n < need {
        return None;
    }
    Some(start + need)
}
