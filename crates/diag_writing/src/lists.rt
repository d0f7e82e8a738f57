// Address lists, type 30: each an entry of its own, into an output that has room for them.
ghost use Rattle.std.specs.Prelude.{◌≡◌, ◌+◌, ◌≤◌, length};
ghost use Rattle.refusal.specs.Every.{Every};
ghost use Rattle.refusal.specs.Output.{put};
ghost use Rattle.refusal.specs.Each.{joined};
ghost use Rattle.diag_writing.specs.Pieces.{list_entry, ListLies};

use diag_rows::ChildIpv6AddrInfo;

fn put_list(x: ChildIpv6AddrInfo, bytes: &[u8], out: &mut [u8], at: usize) -> usize
    requires { ListLies bytes.now x × (at + length (list_entry bytes.now x) ≤ length out.old) }
    ensures { (result ≡ at + length (list_entry bytes.now x)) × (out.new ≡ put out.old at (list_entry bytes.now x)) }
{
    let start = x.start;
    let end = start + x.len;
    let rloc16 = wire_bytes::u16_bytes(x.rloc16);
    let a = tlv_writing::put_header(diag_rules::CHILD_IPV6_ADDRESSES, 2 + x.len, out, at);
    out[a] = rloc16[0];
    out[a + 1] = rloc16[1];
    copying::put_bytes(&bytes[start..end], out, a + 2)
}

// Lists, one after the other.
pub(crate) fn put_lists(
    lists: &[ChildIpv6AddrInfo],
    bytes: &[u8],
    out: &mut [u8],
    mut at: usize,
) -> usize
    requires { Every (ListLies bytes.now) lists.now × (at + length (joined (list_entry bytes.now) lists.now) ≤ length out.old) }
    ensures { (result ≡ at + length (joined (list_entry bytes.now) lists.now)) × (out.new ≡ put out.old at (joined (list_entry bytes.now) lists.now)) }
{
    for x in lists {
        at = put_list(*x, bytes, out, at);
    }
    at
}
