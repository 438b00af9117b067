// One decider, a rule or the default: its verdict on a frame, and its record: levels, counts, conversations. The record is lent and changed in place.
#![tactic(auto)]

pub mod ageing;
pub mod good;
mod rate;
pub mod reacting;
pub mod verdict;

// The levels of socket 0 and socket 1, passed, blocked. Words and no struct: the definition rule_of reads a record from them.
pub type CountWords = [u32; COUNT_WORDS];

pub const COUNT_WORDS: usize = 4;

// Where each stands.
pub const LEVEL0: usize = 0;

pub const LEVEL1: usize = 1;

pub const PASSED: usize = 2;

pub const BLOCKED: usize = 3;

// A level is in thousandths of a frame. Levels stop here, counts at the largest number of 32 bits.
pub(crate) const FRAME: u32 = 1000;

pub(crate) const LEVEL_MOST: u32 = 4294967000;
