// Judges a capture by parts: each record in its turn, and its line in a space that is lent. It does no input and no output.
#![tactic(auto)]

pub mod feeding;
pub mod judging;

use capture::State;

// What a call leaves: the reader's state, the place of the next record, how many bytes it used, how many it wrote;
// `more` says that nothing can be done before more bytes come.
#[derive(Clone, Copy)]
pub struct Fed {
    pub state: State,
    pub place: u64,
    pub used: usize,
    pub count: usize,
    pub more: bool,
}
