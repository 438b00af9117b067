// One rule's conversations, each in a place: found, moved on, begun. Places are lent as words and changed in place.
#![tactic(auto)]

mod scan;
pub mod track;

use flags::FlagKind;
use places::Quad;

// What a rule looks at in a frame: its socket, which the quadruple has, and of a TCP segment the conversation and what the flags count as, None where they are wrong.
// A frame without one has no conversation, on its socket.
#[derive(Clone, Copy)]
pub struct Turn {
    pub quad: Quad,
    pub flags: Option<FlagKind>,
}

// What tracking says of a frame: it holds, or why not. Five cases and no Result round four: each is a verdict of its own (definition verdict_of).
#[derive(Clone, Copy, PartialEq, Eq)]
pub enum Progress {
    Holds,
    WrongFlags,
    NoConversation,
    NotInState,
    // No place is free, or the socket is at its number.
    NoPlaceFree,
}
