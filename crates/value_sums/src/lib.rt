// Numbers added up modulo 2^64, and so the fields of a mode and the counts of Network Data: for crates/payload_sums and crates/speed.
#![tactic(auto)]

ghost use Rattle.std.specs.Prelude.{◌≡◌};
ghost use Rattle.value_sums.specs.Sums.{plus, flag, mode_sum, counts_sum};

use diag_values::ModeData;
use network_data::Counts;

#[tactic(auto, unfolding(crate::specs::Sums::plus))]
pub fn plus(a: u64, b: u64) -> u64
    ensures { result ≡ plus a b }
{
    a.wrapping_add(b)
}

pub fn flag(b: bool) -> u64
    ensures { result ≡ flag b }
{
    if b { 1 } else { 0 }
}

pub fn mode_sum(m: ModeData) -> u64
    ensures { result ≡ mode_sum m }
{
    let a = plus(0, flag(m.rx_on_when_idle));
    let b = plus(a, flag(m.is_mtd));
    plus(b, flag(m.requires_full_network_data))
}

pub fn counts_sum(c: Counts) -> u64
    ensures { result ≡ counts_sum c }
{
    let a = plus(0, c.prefixes as u64);
    let b = plus(a, c.has_routes as u64);
    plus(b, c.border_routers as u64)
}
