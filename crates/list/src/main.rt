// The listing program: reads hex text from standard input and prints the flat listing of its dataset or payload, or the refusal.
#![tactic(auto)]

ghost use Rattle.std.specs.Prelude.{◌≤◌, length, IfOk};

use std::io;
use std::io::{Read, Stdin};

// Fills input from its start with what comes, up to its end or to the end of what comes. How many bytes that is.
fn read_full(mut from: Stdin, input: &mut [u8]) -> io::Result<usize>
    ensures { IfOk result (λ n. n ≤ length input.old) }
{
    let mut n = 0;
    while n < input.len() {
        let got = from.read(&mut input[n..])?;
        if got == 0 {
            return Ok(n);
        }
        n += got;
    }
    Ok(n)
}

fn main(rt: HostRuntime) -> io::Result<()> {
    let mut input = [0u8; listing::REPORT_READS];
    let mut text = [0u8; listing::REPORT_BYTES];
    let n = read_full(rt.stdin(), &mut input)?;
    if let Ok(k) = listing::report_text(&input[..n], &mut text) {
        rt.write_all(&text[0..k])?;
    }
    Ok(())
}
