// What a diagnostic payload says as one number, all fields of its record and all its rows added up: for crates/speed.
#![tactic(auto)]

mod rows;
mod sums;

ghost use Rattle.std.specs.Prelude.{◌≡◌};
ghost use Rattle.refusal.specs.Answer.{on_given};
ghost use Rattle.refusal.specs.Results.{answer_of};
ghost use Rattle.diag.specs.Diag.{decode};
ghost use Rattle.payload_sums.specs.Rows.{payload_sum};

use diag::NetDiagData;
use refusal::Refusal;
use rows::payload_sum;

// The sum of a payload. Refusals: those of its decode.
pub fn sum_payload(payload: &[u8]) -> Result<u64, Refusal>
    ensures { answer_of result ≡ on_given (payload_sum payload.now) (decode payload.now) }
{
    let d = NetDiagData::decode(payload)?;
    Ok(payload_sum(payload, d))
}
