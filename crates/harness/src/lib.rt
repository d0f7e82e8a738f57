// The program `probe` behind its `main`: the calls of the library by a line protocol, requests on standard input, one answer line each.
//
// `lines` reads and writes, `requests` reads a line's words, `calls` looks for the module that knows the call, and the modules `..._texts` make the
// call and put what it answers, with the pieces of `texts`. docs/USERS.md has an example of each request.
#![tactic(auto)]

mod answers;
mod built_texts;
mod calls;
mod dataset_texts;
mod diag_texts;
mod edit_texts;
mod entry_texts;
mod index_texts;
mod lines;
mod network_texts;
mod requests;
mod rooms;
mod texts;
mod value_texts;
mod write_texts;

use std::io;

// Answers each line of the standard input, of which there may be any number, until its end. A line has up to 600,000 characters; a longer
// one is answered once, as one bad request. Answers are written when there are many of them, and before more input is waited for.
pub fn serve(rt: HostRuntime) -> io::Result<()> {
    let mut input = rooms::room();
    let mut arena = rooms::room();
    let mut out = rooms::lent();
    let mut text = rooms::room();
    lines::answer_all(
        rt.stdin(),
        rt.stdout(),
        &mut input,
        &mut arena,
        &mut out,
        &mut text,
    )
}
