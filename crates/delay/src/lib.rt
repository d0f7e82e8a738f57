// The working delay of a pending dataset, and the second at which it is due.
#![tactic(auto)]

ghost use Rattle.std.specs.Prelude.{◌≡◌, [], ◌∷◌};
ghost use Rattle.refusal.specs.Results.{answer_of};
ghost use Rattle.delay.specs.Delay.{default_delay, half_minute, most_now, delay_or, due_or, working_delay, working_delay_half_minute, due_second, due_second_half_minute};

use refusal::{Fault, Refusal};

// The working delay of a dataset without a delay timer, in milliseconds.
pub const DEFAULT_DELAY: u32 = 300000;

// Half a minute, in milliseconds: that default before document 02. The college handset asks for it by name.
pub const HALF_MINUTE: u32 = 30000;

// The latest "now", in seconds: those of a timestamp have 48 bits.
pub const MAX_NOW: u64 = 281474976710655;

// The public constants, held to their numbers.
fn constants() -> [u32; 2]
    ensures { result ≡ default_delay ∷ half_minute ∷ [] }
{
    [DEFAULT_DELAY, HALF_MINUTE]
}

fn wide_constants() -> [u64; 1]
    ensures { result ≡ most_now ∷ [] }
{
    [MAX_NOW]
}

// The delay timer, or the default where there is none.
#[tactic(auto, using(refusal::proofs::Papers::passes), unfolding(crate::specs::Delay::delay_or))]
fn delay_or(dataset: &[u8], default: u32) -> Result<u32, Refusal>
    ensures { answer_of result ≡ delay_or default dataset.now }
{
    let timer = dataset::delay_timer(dataset)?;
    Ok(timer.unwrap_or(default))
}

// The second at which the dataset is due by the delay that has this default.
#[tactic(auto, using(refusal::proofs::Papers::passes, crate::proofs::Cases::seconds_is), unfolding(crate::specs::Delay::due_or))]
fn due_or(dataset: &[u8], default: u32, clock: u64) -> Result<u64, Refusal>
    ensures { answer_of result ≡ due_or default dataset.now clock }
{
    let ms = delay_or(dataset, default)?;
    if clock > MAX_NOW {
        return refusal::refuse(Fault::NowTooLate, 0);
    }
    Ok(clock + u64::from(ms).div_ceil(1000))
}

// The delay timer, or five minutes where there is none. Refusals: 1, 2, 3, then 4 at the timer's entry.
pub fn working_delay(dataset: &[u8]) -> Result<u32, Refusal>
    ensures { answer_of result ≡ working_delay dataset.now }
{
    delay_or(dataset, DEFAULT_DELAY)
}

// The delay timer, or half a minute where there is none. Refusals: those of `working_delay`.
pub fn working_delay_half_minute(dataset: &[u8]) -> Result<u32, Refusal>
    ensures { answer_of result ≡ working_delay_half_minute dataset.now }
{
    delay_or(dataset, HALF_MINUTE)
}

// The second at which the dataset is due, where the clock is the second that it is now. Refusals: those of `working_delay`, then 14.
pub fn due_second(dataset: &[u8], clock: u64) -> Result<u64, Refusal>
    ensures { answer_of result ≡ due_second dataset.now clock }
{
    due_or(dataset, DEFAULT_DELAY, clock)
}

// The due second by the delay of `working_delay_half_minute`. Refusals: those of `due_second`.
pub fn due_second_half_minute(dataset: &[u8], clock: u64) -> Result<u64, Refusal>
    ensures { answer_of result ≡ due_second_half_minute dataset.now clock }
{
    due_or(dataset, HALF_MINUTE, clock)
}
