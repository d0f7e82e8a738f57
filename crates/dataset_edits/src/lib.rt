// The edits of a dataset (dataset.rs).
#![tactic(auto)]

ghost use Rattle.std.specs.Prelude.{◌≡◌};
ghost use Rattle.refusal.specs.Output.{output, emit};
ghost use Rattle.refusal.specs.Results.{answer_of};
ghost use Rattle.tlv_rewriting.specs.Rewrite.{rewritten, with_set};
ghost use Rattle.tlv_rewriting.specs.declared.Choice.TheVariants.{All, Without};

use refusal::Refusal;
use tlv_rewriting::Choice;

// Each into a lent output. Setting: 1, 2, 3, 13, 10, 11.
pub fn set_raw(s: &[u8], ty: u8, value: &[u8], out: &mut [u8]) -> Result<usize, Refusal>
    ensures { output (answer_of result) out.new ≡ emit (with_set ty value.now s.now) out.old }
{
    tlv_rewriting::set_last(s, ty, value, out)
}

// Removing: 1, 2, 3, 11.
pub fn remove_all(s: &[u8], ty: u8, out: &mut [u8]) -> Result<usize, Refusal>
    ensures { output (answer_of result) out.new ≡ emit (rewritten (Without ty) s.now) out.old }
{
    tlv_rewriting::write_kept(s, Choice::Without(ty), out)
}

// Written afresh: 1, 2, 3, 11.
pub fn to_bytes(s: &[u8], out: &mut [u8]) -> Result<usize, Refusal>
    ensures { output (answer_of result) out.new ≡ emit (rewritten All s.now) out.old }
{
    tlv_rewriting::rewrite(s, out)
}
