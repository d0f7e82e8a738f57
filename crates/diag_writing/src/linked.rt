// Connectivity, type 4.
ghost use Rattle.std.specs.Prelude.{◌≡◌, ◌≤◌, length};
ghost use Rattle.connectivity.specs.Answers.{connectivity_paper};
ghost use Rattle.value_writing.specs.Encode.{priority_bits, connectivity_bytes};
ghost use Rattle.diag_writing.specs.Short.{bytes_in};

use connectivity::Connectivity;

// The first len of its bytes.
#[derive(Clone, Copy)]
pub(crate) struct ConnectivityBytes {
    pub(crate) bytes: [u8; 10],
    pub(crate) len: usize,
}

fn priority_bits(p: i8) -> u8
    ensures { (result ≡ priority_bits p) × (result ≤ 3) }
{
    if p == 1 {
        return 1;
    }
    if p == -1 {
        return 3;
    }
    if p == -2 {
        return 2;
    }
    0
}

// Its value, of 7 bytes or, with the late fields, of 10.
pub(crate) fn connectivity_bytes(c: Connectivity) -> ConnectivityBytes
    ensures { (bytes_in result ≡ connectivity_bytes (connectivity_paper c)) × (result.len ≤ 10) × (length result.bytes ≡ 10) }
{
    let p = priority_bits(c.parent_priority) * 64;
    let b = c.rx_off_child_buffer_size;
    let d = c.rx_off_child_datagram_count;
    let short = ConnectivityBytes {
        bytes: [
            p,
            c.link_quality_3,
            c.link_quality_2,
            c.link_quality_1,
            c.leader_cost,
            c.id_sequence,
            c.active_routers,
            0,
            0,
            0,
        ],
        len: 7,
    };
    match b {
        None => short,
        Some(x) => match d {
            None => short,
            Some(y) => {
                let w = wire_bytes::u16_bytes(x);
                ConnectivityBytes {
                    bytes: [
                        p,
                        c.link_quality_3,
                        c.link_quality_2,
                        c.link_quality_1,
                        c.leader_cost,
                        c.id_sequence,
                        c.active_routers,
                        w[0],
                        w[1],
                        y,
                    ],
                    len: 10,
                }
            }
        },
    }
}
