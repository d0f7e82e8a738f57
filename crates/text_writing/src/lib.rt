// Text into a lent output as far as there is room, counting on past its end: into no room a writer tells the size of its text. A caller that must write all
// or nothing asks for the size first.
#![tactic(auto)]

ghost use Rattle.std.specs.Prelude.{◌≡◌, [], ◌∷◌};
ghost use Rattle.refusal.specs.Output.{placing};
ghost use Rattle.text_writing.specs.Decimal.{decimal};
ghost use Rattle.text_writing.specs.Laid.{laid};

// A byte into out at a place, if it has such a place; the place after it. The last place that is counted is usize::MAX, which no output reaches.
pub fn put_byte(b: u8, out: &mut [u8], at: usize) -> usize
    ensures { placing result out.new ≡ laid at out.old (b ∷ []) }
{
    if at < out.len() {
        out[at] = b;
        return at + 1; // a place of an output is never the last that is counted
    }
    at.saturating_add(1)
}

// A text into out from at on, as far as there is room; the place after it.
#[tactic(auto, using(crate::proofs::Lays::laid_length, crate::proofs::Lays::copy_turn, crate::proofs::Lays::copy_end))]
pub fn put_text(text: &[u8], out: &mut [u8], at: usize) -> usize
    ensures { placing result out.new ≡ laid at out.old text.now }
{
    let mut next = at;
    for b in text {
        next = put_byte(*b, out, next);
    }
    next
}

// A number in decimal into out from at on, as far as there is room; the place after it.
pub fn put_decimal(n: usize, out: &mut [u8], at: usize) -> usize
    ensures { placing result out.new ≡ laid at out.old (decimal n) }
{
    if n < 10 {
        return put_byte(b'0' + n as u8, out, at);
    }
    let last = put_decimal(n / 10, out, at);
    put_byte(b'0' + (n % 10) as u8, out, last)
}
