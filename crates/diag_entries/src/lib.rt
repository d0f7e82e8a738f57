// The entries of a diagnostic payload (decode.rs): that each of them decodes.
#![tactic(auto)]

ghost use Rattle.std.specs.Prelude.{◌≡◌, length};
ghost use Rattle.refusal.specs.Answer.{on_given};
ghost use Rattle.refusal.specs.Results.{answer_of};
ghost use Rattle.diag_rules.specs.Answers.{judged};
ghost use Rattle.diag_entries.specs.Checked.{entry_value, checked};

use refusal::Refusal;

// Whether the value of an entry decodes. Refusals: 1, then 4, 5 and 12 at the entry.
fn check_entry(ty: u8, value: &[u8], place: usize) -> Result<(), Refusal>
    ensures { answer_of result ≡ judged (entry_value ty place value.now) }
{
    if ty == diag_rules::NETWORK_DATA {
        network_data::check(value, place)?;
        return Ok(());
    }
    diag_rules::check_value(ty, value, place)
}

// How many entries a payload has, each of which decodes. Refusals: 1, 2, 3, then 4, 5 and 12, the first met.
#[tactic(auto, using(crate::proofs::Checks::check_refused))]
pub fn check_values(payload: &[u8]) -> Result<usize, Refusal>
    ensures { answer_of result ≡ on_given length (checked payload.now) }
{
    let n = tlv::count_entries(payload, 0)?; // before any value is read
    for entry in tlv::entries(payload) {
        check_entry(entry.ty, entry.value, entry.place)?;
    }
    Ok(n)
}
