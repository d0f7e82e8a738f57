// The lines on change lists, and the listing.
use crate::sheet::{Score, judge, put_said, put_written};
use crate::text::{Room, empty, part_of, put, put_hex, put_refusal};
use refusal::Refusal;
use std::io;

fn folded(score: Score, list: &[u8], stated: &[u8]) -> io::Result<Score> {
    let mut text = empty();
    let mut out = empty();
    let said = put_said(&mut text, b"list ", list, b" folds to: ");
    let written = changes::fold(list, &mut out);
    let end = put_written(&mut text, said, written, &out);
    judge(score, &mut text, said, end, stated)
}

fn ran(score: Score, list: &[u8], dataset: &[u8], stated: &[u8]) -> io::Result<Score> {
    let mut text = empty();
    let mut out = empty();
    let on = put_said(&mut text, b"list ", list, b" on ");
    let input = put_hex(&mut text, on, dataset);
    let said = put(&mut text, input, b" gives: ");
    let written = changes::run(dataset, list, &mut out);
    let end = put_written(&mut text, said, written, &out);
    judge(score, &mut text, said, end, stated)
}

fn put_listing(text: &mut Room, at: usize, written: Result<usize, Refusal>, out: &Room) -> usize {
    match written {
        Ok(k) => put(text, at, part_of(out, 0, k)),
        Err(r) => put_refusal(text, at, r),
    }
}

fn listed(score: Score, input: &[u8], stated: &[u8]) -> io::Result<Score> {
    let mut text = empty();
    let mut out = empty();
    let word = put(&mut text, 0, input);
    let said = put(&mut text, word, b" gives:\n");
    let written = listing::report_text(input, &mut out);
    let end = put_listing(&mut text, said, written, &out);
    judge(score, &mut text, said, end, stated)
}

pub(crate) fn lines(score: Score) -> io::Result<Score> {
    // "List `53 45 00 01 01 53 45 03 01 41 53 45 00 01 02` folds to `53 45 03 01 41 53 45 00 01 02`"
    let list = b"\x53\x45\x00\x01\x01\x53\x45\x03\x01\x41\x53\x45\x00\x01\x02";
    let mut s = folded(score, list, b"53 45 03 01 41 53 45 00 01 02")?;
    // "on `00 01 09 07 00 00 00` it gives `07 00 03 01 41 00 01 02`": the list, and what it folds to
    let dataset = b"\x00\x01\x09\x07\x00\x00\x00";
    s = ran(s, list, dataset, b"07 00 03 01 41 00 01 02")?;
    let fold = b"\x53\x45\x03\x01\x41\x53\x45\x00\x01\x02";
    s = ran(s, fold, dataset, b"07 00 03 01 41 00 01 02")?;
    // "`53 45 03 01 41 52 4D 03` folds to `52 4D 03`."
    s = folded(s, b"\x53\x45\x03\x01\x41\x52\x4D\x03", b"52 4D 03")?;
    // the listing program: "`03ff0001410700` gives"
    listed(s, b"03ff0001410700", b"entries 2\n3 1\n7 0\n")
}
