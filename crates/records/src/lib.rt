// The records: good, fresh, and what one frame does to them. They are lent and changed in place.
#![tactic(auto)]

pub mod act;
pub mod fresh;
pub mod good;
pub mod shape;
pub mod time;

use places::AllPlaces;
use table::RULES;
use verdicts::CountWords;

// Last reading, active state.
pub type Head = [u64; HEAD_WORDS];
// Per rule the levels, passed, blocked; the last row is the default's.
pub type Counts = [CountWords; COUNT_ROWS];
// Per rule its places for conversations; the default has none.
pub type Places = AllPlaces;

// The words of the records: what is kept from frame to frame, lent to each call.
// Of any kinds of rows: of a struct whose fields are named as arrays of arrays a literal gets no proof.
#[derive(Clone, Copy)]
pub struct Words<C, P> {
    pub head: Head,
    pub counts: C,
    pub places: P,
}

pub type RecordWords = Words<Counts, Places>;

// How many words of the head, and rows of counts.
pub const HEAD_WORDS: usize = 2;

pub const COUNT_ROWS: usize = RULES + 1;

// Where each word of the head stands, and the default's row.
pub const LAST: usize = 0;

pub const ACTIVE: usize = 1;

pub const DEFAULT: usize = RULES;
