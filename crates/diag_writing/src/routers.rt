// Route64, type 5.
ghost use Rattle.std.specs.Prelude.{◌≡◌, ◌+◌, ◌≤◌, take};
ghost use Rattle.value_writing.specs.Encode.{route64_bytes};
ghost use Rattle.record_writing.specs.Lent.{route_used};

use crate::values::route_byte;
use route64::Route64;

// The first 9 + count of them are its value.
pub(crate) fn route64_bytes(t: Route64) -> [u8; 73]
    requires { t.count ≤ 64 }
    ensures { take (9 + t.count) result ≡ route64_bytes (route_used t) }
{
    let m = t.mask;
    let mut a = [0u8; 73];
    a[0] = t.id_sequence;
    a[1] = m[0];
    a[2] = m[1];
    a[3] = m[2];
    a[4] = m[3];
    a[5] = m[4];
    a[6] = m[5];
    a[7] = m[6];
    a[8] = m[7];
    let mut n: usize = 0;
    while n < t.count {
        a[9 + n] = route_byte(t.route_data[n]);
        n += 1;
    }
    a
}
