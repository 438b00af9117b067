// The paper's worked set: its table T, its frames, and the lines of the page that shows them.
#![tactic(auto)]

pub mod frames;
pub mod lines;
pub mod rules;

// The frames, by name.
#[derive(Clone, Copy)]
pub enum Frame {
    A,
    Padded,
    Type81,
    Cut,
    Ether0806,
    Ack1,
    SynAck1,
    Syn1,
    Syn2,
    Syn3,
    Port68,
    Port1024,
    First13,
    Tagged17,
    Longest,
    TooLong,
}

// What the paper says of a frame: a refusal by its number; or verdict and rule id, 65,535 for the default, without an event or with one:
// its number, the rule that it names, and its length.
#[derive(Clone, Copy)]
pub enum Expected {
    Refused(u8),
    Quiet {
        verdict: u8,
        rule: u16,
    },
    Event {
        verdict: u8,
        rule: u16,
        number: u16,
        named: u16,
        length: usize,
    },
}

// A line of the page: the number of the example, whether a fresh record comes first, the reading, the frame, and what is expected.
#[derive(Clone, Copy)]
pub struct Line {
    pub example: u8,
    pub fresh: bool,
    pub reading: u64,
    pub frame: Frame,
    pub expected: Expected,
}
