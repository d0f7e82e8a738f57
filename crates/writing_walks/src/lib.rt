// No functions: the records that the writer hands from one call to the next.
#![tactic(auto)]

use refusal::Refusal;

// Where the next prefix goes in the output, and where its rows begin in the two tables.
#[derive(Clone, Copy)]
pub struct Cursor {
    pub at: usize,
    pub route: usize,
    pub border: usize,
}

// What the prefixes gone through ask for, and how many bytes they take; once the sum is over the size of a payload it stays.
#[derive(Clone, Copy)]
pub struct Prefixes {
    pub routes: usize,
    pub borders: usize,
    pub size: usize,
    pub fits: bool,
}

// Whether the lists gone through are short enough and fit, in so many lent bytes, and how many bytes they take.
#[derive(Clone, Copy)]
pub struct Lists {
    pub bytes: usize,
    pub short: bool,
    pub fits: bool,
    pub size: usize,
}

// What is lent, in bytes and rows; how many rows of each table the record uses; and with what each table's pass begins.
#[derive(Clone, Copy)]
pub struct Used {
    pub bytes: usize,
    pub room: usize,
    pub prefixes_lent: usize,
    pub routes_lent: usize,
    pub borders_lent: usize,
    pub children_lent: usize,
    pub lists_lent: usize,
    pub prefixes: usize,
    pub routes: usize,
    pub borders: usize,
    pub children: usize,
    pub lists: usize,
    pub no_prefixes: Prefixes,
    pub no_lists: Lists,
    pub fits: bool,
}

// The answer; whether there is something to write; how many rows of each table then, and how many bytes Network Data has.
#[derive(Clone, Copy)]
pub struct Plan {
    pub answer: Result<usize, Refusal>,
    pub go: bool,
    pub prefixes: usize,
    pub network: usize,
    pub children: usize,
    pub lists: usize,
}
