// The flat listing of a dataset or payload as text, from bytes and from hex, and what the program `list` prints.
#![tactic(auto)]

ghost use Rattle.std.specs.Prelude.{◌≡◌, [], ◌∷◌, length};
ghost use Rattle.refusal.specs.Answer.{given};
ghost use Rattle.refusal.specs.Output.{output, emit, placing};
ghost use Rattle.refusal.specs.Results.{answer_of};
ghost use Rattle.tlv.specs.Entries.{framing};
ghost use Rattle.text_writing.specs.Laid.{laid};
ghost use Rattle.listing.specs.Listing.{pair_line, entry_lines, listing, listed, listed_hex, line_of, refused_line, telling, report, report_reads, report_bytes};

use refusal::{Fault, Refusal};

// A listing program reads no more than this: with one byte more than the digits and their newline, a text that is too long is told apart.
pub const REPORT_READS: usize = refusal::MAX_DIGITS + 2;
// What `list` prints is never longer than this.
pub const REPORT_BYTES: usize = 16 * refusal::MAX_ENTRIES;

// The public constants, held to their numbers.
fn constants() -> [usize; 2]
    ensures { result ≡ report_reads ∷ report_bytes ∷ [] }
{
    [REPORT_READS, REPORT_BYTES]
}

// The line of two numbers into out from at on, as far as there is room; the place after it.
pub fn put_line(a: usize, b: usize, out: &mut [u8], at: usize) -> usize
    ensures { placing result out.new ≡ laid at out.old (pair_line a b) }
{
    let space = text_writing::put_decimal(a, out, at);
    let second = text_writing::put_byte(b' ', out, space);
    let end = text_writing::put_decimal(b, out, second);
    text_writing::put_byte(b'\n', out, end)
}

// The lines of the entries of s into out from at on; the place after them.
fn put_lines(s: &[u8], out: &mut [u8], at: usize) -> usize
    ensures { placing result out.new ≡ laid at out.old (entry_lines (framing s.now).entries) }
{
    let mut next = at;
    for entry in tlv::entries(s) {
        next = put_line(entry.ty as usize, entry.value.len(), out, next);
    }
    next
}

// The listing of the n entries of s into out; the place after it.
fn put_listing(s: &[u8], n: usize, out: &mut [u8]) -> usize
    requires { n ≡ length (framing s.now).entries }
    ensures { placing result out.new ≡ laid 0 out.old (listing (framing s.now).entries) }
{
    let word = text_writing::put_text(b"entries ", out, 0);
    let end = text_writing::put_decimal(n, out, word);
    let first = text_writing::put_byte(b'\n', out, end);
    put_lines(s, out, first)
}

// The listing of a dataset or payload, at the start of out. Refusals: 1, 2, 3, 11.
pub fn list(s: &[u8], out: &mut [u8]) -> Result<usize, Refusal>
    ensures { output (answer_of result) out.new ≡ emit (listed s.now) out.old }
{
    let n = tlv::count_entries(s, 0)?;
    let mut no_room = [0u8; 0];
    let need = put_listing(s, n, &mut no_room);
    if need > out.len() {
        return refusal::refuse(Fault::NoRoom, 0);
    }
    put_listing(s, n, out);
    Ok(need)
}

// The listing of a dataset or payload in hex text, at the start of out. Refusals: 1, 7, 8, 2, 3, 11.
#[tactic(auto, using(refusal::proofs::Papers::passes, crate::proofs::Hexes::decoded_within, crate::proofs::Hexes::front, crate::proofs::Hexes::length_both), unfolding(refusal::specs::Output::emit, crate::specs::Listing::hex_by))]
pub fn list_hex(text: &[u8], out: &mut [u8]) -> Result<usize, Refusal>
    ensures { output (answer_of result) out.new ≡ emit (listed_hex text.now) out.old }
{
    let mut bytes = [0u8; refusal::MAX_BYTES];
    let n = base16::decode(text, &mut bytes)?;
    list(&bytes[0..n], out)
}

// How many bytes of input are left where one final newline is dropped.
pub fn line_end(input: &[u8]) -> usize
    ensures { result ≡ length (line_of input.now) }
{
    match input {
        [line @ .., b'\n'] => line.len(),
        _ => input.len(),
    }
}

// The line of a refusal into out; the place after it.
fn put_refused(number: u8, place: usize, out: &mut [u8]) -> usize
    ensures { placing result out.new ≡ laid 0 out.old (refused_line number place) }
{
    let word = text_writing::put_text(b"refused ", out, 0);
    put_line(number as usize, place, out, word)
}

// The line of a refusal, at the start of out. Refusal: 11.
fn write_refused(number: u8, place: usize, out: &mut [u8]) -> Result<usize, Refusal>
    ensures { output (answer_of result) out.new ≡ emit (given (refused_line number place)) out.old }
{
    let mut no_room = [0u8; 0];
    let size = put_refused(number, place, &mut no_room);
    if size > out.len() {
        return refusal::refuse(Fault::NoRoom, 0);
    }
    put_refused(number, place, out);
    Ok(size)
}

// What a program leaves of a listing's answer: a refusal is told as a line, unless it is 11, which is about the listing. Refusal: 11.
pub fn tell(written: Result<usize, Refusal>, out: &mut [u8]) -> Result<usize, Refusal>
    ensures { output (answer_of result) out.new ≡ telling (answer_of written) out.old }
{
    let Err(r) = written else {
        return written;
    };
    let number = r.fault.number();
    if number == 11 {
        return written;
    }
    write_refused(number, r.place, out)
}

// What the program `list` prints for its standard input, at the start of out: the listing, or the refusal as a line. Refusal: 11.
pub fn report_text(input: &[u8], out: &mut [u8]) -> Result<usize, Refusal>
    ensures { output (answer_of result) out.new ≡ emit (given (report input.now)) out.old }
{
    let end = line_end(input);
    let written = list_hex(&input[0..end], out);
    tell(written, out)
}
