// The calls whose instructions bench/ counts, under C names: each answers what is given, or 2^63 plus the number of the refusal;
// `speed_last` and `speed_by_index` the length of what is found, and `speed_utf8` yes or no.
#![tactic(auto)]

mod filled;

ghost use Rattle.std.specs.Prelude.{◌≡◌, length};
ghost use Rattle.refusal.specs.Answer.{given, on_given};
ghost use Rattle.refusal.specs.Number.{refusal_answer};
ghost use Rattle.refusal.specs.Output.{emit};
ghost use Rattle.refusal.specs.Results.{answer_of};
ghost use Rattle.tlv.specs.Limits.{count};
ghost use Rattle.tlv_last.specs.Last.{last_value};
ghost use Rattle.dataset_index.specs.Index.{built};
ghost use Rattle.dataset_index.specs.Query.{value_by_index};
ghost use Rattle.tlv_rewriting.specs.Rewrite.{rewritten};
ghost use Rattle.tlv_rewriting.specs.declared.Choice.TheVariants.{All};
ghost use Rattle.hex_text.specs.HexText.{hex_text};
ghost use Rattle.base16.specs.Base16.{decoded};
ghost use Rattle.address_forms.specs.AddressText.{address_text};
ghost use Rattle.address_forms.specs.AddressRead.{text_address};
ghost use Rattle.utf8.specs.Utf8.{octets};
ghost use Rattle.change_folds.specs.Run.{ran};
ghost use Rattle.change_folds.specs.Fold.{folded};
ghost use Rattle.network_data.specs.Decode.{counts_of, decode_network_data};
ghost use Rattle.diag_values.specs.Values.{mode_value};
ghost use Rattle.diag_rules.specs.Rule.{value_of};
ghost use Rattle.diag.specs.Diag.{decode};
ghost use Rattle.record_writing.specs.Written.{written};
ghost use Rattle.speed.specs.Code.{code};
ghost use Rattle.speed.specs.Address.{address_in};
ghost use Rattle.speed.specs.Filled.{record_of, lent_with};
ghost use Rattle.value_sums.specs.Sums.{mode_sum, counts_sum};
ghost use Rattle.payload_sums.specs.Rows.{payload_sum};

use diag_values::ModeData;
use filled::{all_lent, record_of, rows_of, tables_of};
use payload_sums::sum_payload;
use refusal::Refusal;
use value_sums::{counts_sum, mode_sum};

const NONE: u64 = 9223372036854775808;

#[tactic(auto, unfolding(crate::specs::Code::code))]
fn refused(r: Refusal) -> u64
    ensures { result ≡ code (refusal_answer r) }
{
    NONE + u64::from(r.fault.number())
}

#[tactic(auto, unfolding(crate::specs::Code::code))]
fn coded(w: Result<usize, Refusal>) -> u64
    ensures { result ≡ code (answer_of w) }
{
    match w {
        Ok(n) => n as u64,
        Err(r) => refused(r),
    }
}

#[unsafe(no_mangle)]
pub extern "C" fn speed_count(s: &[u8]) -> u64
    ensures { result ≡ code (count 0 s.now) }
{
    coded(tlv::count_entries(s, 0))
}

#[unsafe(no_mangle)]
pub extern "C" fn speed_last(s: &[u8], ty: u8) -> u64
    ensures { result ≡ length (last_value ty s.now) }
{
    tlv_last::last_value(s, ty).len() as u64
}

#[unsafe(no_mangle)]
pub extern "C" fn speed_index(dataset: &[u8], out: &mut [u8]) -> u64
    ensures { (result ≡ code (emit (built dataset.now) out.old).answer) × (out.new ≡ (emit (built dataset.now) out.old).left) }
{
    coded(dataset_index::build(dataset, out))
}

#[unsafe(no_mangle)]
pub extern "C" fn speed_by_index(dataset: &[u8], index: &[u8], ty: u8) -> u64
    ensures { result ≡ length (value_by_index ty dataset.now index.now) }
{
    dataset_index::last_value(dataset, index, ty).len() as u64
}

#[unsafe(no_mangle)]
pub extern "C" fn speed_rewrite(s: &[u8], out: &mut [u8]) -> u64
    ensures { (result ≡ code (emit (rewritten All s.now) out.old).answer) × (out.new ≡ (emit (rewritten All s.now) out.old).left) }
{
    coded(tlv_rewriting::rewrite(s, out))
}

#[unsafe(no_mangle)]
pub extern "C" fn speed_unhex(text: &[u8], out: &mut [u8]) -> u64
    ensures { (result ≡ code (emit (decoded text.now) out.old).answer) × (out.new ≡ (emit (decoded text.now) out.old).left) }
{
    coded(base16::decode(text, out))
}

#[unsafe(no_mangle)]
pub extern "C" fn speed_hex(bytes: &[u8], out: &mut [u8]) -> u64
    ensures { (result ≡ code (emit (given (hex_text bytes.now)) out.old).answer) × (out.new ≡ (emit (given (hex_text bytes.now)) out.old).left) }
{
    coded(hex_text::encode(bytes, out))
}

// The address has the bytes where they are 16. Fewer stand before zeros; of more, none is taken.
#[unsafe(no_mangle)]
pub extern "C" fn speed_address_text(bytes: &[u8], out: &mut [u8]) -> u64
    ensures { (result ≡ code (emit (given (address_text (address_in bytes.now))) out.old).answer) × (out.new ≡ (emit (given (address_text (address_in bytes.now))) out.old).left) }
{
    let mut address = [0u8; 16];
    copying::put_bytes(bytes, &mut address, 0);
    coded(address_writing::write_address(address, out))
}

#[unsafe(no_mangle)]
pub extern "C" fn speed_address_in(text: &[u8], out: &mut [u8]) -> u64
    ensures { (result ≡ code (emit (text_address text.now) out.old).answer) × (out.new ≡ (emit (text_address text.now) out.old).left) }
{
    coded(address_reading::read_address(text, out))
}

#[unsafe(no_mangle)]
pub extern "C" fn speed_utf8(s: &[u8]) -> bool
    ensures { result ≡ octets s.now }
{
    utf8::is_utf8(s)
}

#[unsafe(no_mangle)]
pub extern "C" fn speed_run(dataset: &[u8], list: &[u8], out: &mut [u8]) -> u64
    ensures { (result ≡ code (emit (ran dataset.now list.now) out.old).answer) × (out.new ≡ (emit (ran dataset.now list.now) out.old).left) }
{
    coded(changes::run(dataset, list, out))
}

#[unsafe(no_mangle)]
pub extern "C" fn speed_fold(list: &[u8], out: &mut [u8]) -> u64
    ensures { (result ≡ code (emit (folded list.now) out.old).answer) × (out.new ≡ (emit (folded list.now) out.old).left) }
{
    coded(changes::fold(list, out))
}

#[tactic(auto, unfolding(crate::specs::Code::code))]
#[unsafe(no_mangle)]
pub extern "C" fn speed_mode(value: &[u8]) -> u64
    ensures { result ≡ code (on_given mode_sum (on_given mode_value (value_of 2 0 value.now))) }
{
    match ModeData::decode(value, 0) {
        Ok(m) => mode_sum(m),
        Err(r) => refused(r),
    }
}

#[tactic(auto, unfolding(crate::specs::Code::code))]
#[unsafe(no_mangle)]
pub extern "C" fn speed_network(value: &[u8]) -> u64
    ensures { result ≡ code (on_given counts_sum (on_given counts_of (decode_network_data 0 value.now))) }
{
    match network_data::check(value, 0) {
        Ok(c) => counts_sum(c),
        Err(r) => refused(r),
    }
}

#[tactic(auto, unfolding(crate::specs::Code::code))]
#[unsafe(no_mangle)]
pub extern "C" fn speed_payload(payload: &[u8]) -> u64
    ensures { result ≡ code (on_given (payload_sum payload.now) (decode payload.now)) }
{
    match sum_payload(payload) {
        Ok(n) => n,
        Err(r) => refused(r),
    }
}

// A record made of n, with the Route64 that `routes` is the value of, by the bridge that has its tables by value. They are made, and copied for the call, for
// a record with no field in it as well, which n = 0 is: what n costs above 0 is the writing. One function does both, so that no compiler leaves out of one what
// it leaves in the other.
#[unsafe(no_mangle)]
pub extern "C" fn speed_write(routes: &[u8], bytes: &[u8], n: u8, out: &mut [u8]) -> u64
    ensures { (result ≡ code (emit (written (record_of n) (lent_with routes.now bytes.now)) out.old).answer) × (out.new ≡ (emit (written (record_of n) (lent_with routes.now bytes.now)) out.old).left) }
{
    let route = route64::decode_route64(routes, 0).unwrap_or_default();
    coded(writing_bridge::write(
        record_of(n),
        bytes,
        route,
        tables_of(),
        rows_of(),
        all_lent(),
        out,
    ))
}
