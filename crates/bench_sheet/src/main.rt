// Document 01's bench sheet, line by line and in its order: each line's input goes to the library's public call, and what comes back is compared
// with what the sheet states. A line prints the input, what was got, and `as stated` or `NOT as stated` with what the sheet has.
#![tactic(auto)]

mod diag;
mod framing;
mod lengths;
mod lists;
mod sheet;
mod text;
mod values;

use sheet::Score;
use std::io;

fn main(rt: HostRuntime) -> io::Result<()> {
    let mut score = Score {
        to: rt.stdout(),
        lines: 0,
        good: 0,
    };
    score = framing::lines(score)?;
    score = lengths::lines(score)?;
    score = values::lines(score)?;
    score = diag::lines(score)?;
    score = lists::lines(score)?;
    sheet::total(score)
}
