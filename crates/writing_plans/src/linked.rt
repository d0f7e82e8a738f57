// 15, of Connectivity.
ghost use Rattle.std.specs.Prelude.{◌≡◌};
ghost use Rattle.refusal.specs.Results.{option_of};
ghost use Rattle.connectivity.specs.Answers.{connectivity_paper};
ghost use Rattle.value_writing.specs.Fits.{priority_fits, late_fits, connectivity_fits};

use connectivity::Connectivity;

#[tactic(auto, unfolding(value_writing::specs::Fits::priority_fits))]
fn priority_fits(p: i8) -> bool
    ensures { result ≡ priority_fits p }
{
    -2 <= p && p <= 1
}

// Both or neither.
#[tactic(auto, unfolding(value_writing::specs::Fits::late_fits))]
fn late_fits(b: Option<u16>, d: Option<u8>) -> bool
    ensures { result ≡ late_fits (option_of b) (option_of d) }
{
    b.is_some() == d.is_some()
}

#[tactic(auto, unfolding(value_writing::specs::Fits::connectivity_fits))]
pub(crate) fn connectivity_fits(c: Connectivity) -> bool
    ensures { result ≡ connectivity_fits (connectivity_paper c) }
{
    priority_fits(c.parent_priority)
        && late_fits(c.rx_off_child_buffer_size, c.rx_off_child_datagram_count)
}
