// The text of each kind of record of Network Data.
use crate::answers::Put;
use crate::texts::{
    Room, digit, part_of, put_byte, put_hex, put_marked, put_number, put_numbers, put_text,
};
use network_data::{BorderRouterEntry, HasRouteEntry, PrefixEntry, SixLowPanContext};

fn put_context(text: &mut Room, at: usize, context: Option<SixLowPanContext>) -> usize {
    match context {
        Some(c) => {
            let numbers = [c.context_id as usize, c.context_length as usize];
            let compress = put_byte(text, at, digit(c.is_compress));
            put_numbers(text, compress, b'.', &numbers)
        }
        None => put_byte(text, at, b'-'),
    }
}

impl Put for PrefixEntry {
    fn put(self, text: &mut Room, at: usize) -> usize {
        let bytes = self.prefix;
        let n = (self.prefix_bit_length as usize + 7) / 8;
        let counts = [self.has_routes, self.border_routers];
        let context = self.six_low_pan_context;
        let domain = put_number(text, at, self.domain_id as u64);
        let bits = put_marked(text, domain, b':', self.prefix_bit_length as usize);
        let first = put_byte(text, bits, b':');
        let prefix = put_hex(text, first, part_of(&bytes, 0, n));
        let second = put_byte(text, prefix, b':');
        let end = put_context(text, second, context);
        put_numbers(text, end, b':', &counts)
    }
}

impl Put for HasRouteEntry {
    fn put(self, text: &mut Room, at: usize) -> usize {
        let rloc16 = put_number(text, at, self.rloc16 as u64);
        let preference = put_marked(text, rloc16, b':', self.router_preference as usize);
        let colon = put_byte(text, preference, b':');
        put_byte(text, colon, digit(self.is_nat64))
    }
}

// P, S, D, C, R, O, N and DP as digits.
pub(crate) fn flags(e: BorderRouterEntry) -> [u8; 8] {
    [
        digit(e.is_preferred),
        digit(e.is_slaac),
        digit(e.is_dhcp),
        digit(e.is_configure),
        digit(e.is_default_route),
        digit(e.is_on_mesh),
        digit(e.is_nd_dns),
        digit(e.is_dp),
    ]
}

impl Put for BorderRouterEntry {
    fn put(self, text: &mut Room, at: usize) -> usize {
        let digits = flags(self);
        let rloc16 = put_number(text, at, self.rloc16 as u64);
        let preference = put_marked(text, rloc16, b':', self.prefix_preference as usize);
        let colon = put_byte(text, preference, b':');
        put_text(text, colon, &digits)
    }
}
