// What can be found in the bytes at hand.
ghost use Rattle.std.specs.Prelude.{◌≡◌};
ghost use Rattle.capture.specs.Capture.{head_size};
ghost use Rattle.capture.specs.Parts.{longest, waits, goes, headed, passes, record_move, move_of, end_of};

use crate::headers::{read_head, read_header};
use crate::*;

// The bytes of the file header, of a record's header, and of the longest frame that is judged.
pub const FILE_HEADER: usize = 24;

pub const RECORD_HEADER: usize = 16;

pub const LONGEST: usize = 1518;

fn wait(st: State) -> Move
    ensures { result ≡ waits st }
{
    Move {
        state: st,
        used: 0,
        found: Found::Nothing,
        more: true,
    }
}

fn pass(f: Form, h: Head, why: RecordRefusal) -> Move
    ensures { result ≡ passes f h why }
{
    Move {
        state: State::Passing {
            form: f,
            time: h.time,
            why,
            left: h.stored,
        },
        used: RECORD_HEADER,
        found: Found::Nothing,
        more: false,
    }
}

// A record whose header is at hand.
#[tactic(auto, unfolding(crate::specs::Parts::record_move))]
fn move_by(f: Form, h: Head, s: &[u8]) -> Move
    ensures { result ≡ record_move f h s.now }
{
    if h.stored < h.wire {
        return pass(f, h, RecordRefusal::StoredShort);
    }
    if LONGEST < h.stored {
        return pass(f, h, RecordRefusal::TooLong);
    }
    let used = RECORD_HEADER + h.stored;
    if s.len() < used {
        return wait(State::Records(f));
    }
    Move {
        state: State::Records(f),
        used,
        found: Found::Frame {
            time: h.time,
            len: h.stored,
        },
        more: false,
    }
}

#[tactic(auto, unfolding(crate::specs::Parts::move_of))]
fn move_record(f: Form, s: &[u8]) -> Move
    ensures { result ≡ move_of (State.Records f) s.now }
{
    if s.len() < RECORD_HEADER {
        return wait(State::Records(f));
    }
    move_by(f, read_head(f, s), s)
}

#[tactic(auto, unfolding(crate::specs::Parts::move_of))]
fn move_header(s: &[u8]) -> Move
    ensures { result ≡ move_of State.Start s.now }
{
    if s.len() < FILE_HEADER {
        return wait(State::Start);
    }
    match read_header(s) {
        None => Move {
            state: State::Done,
            used: FILE_HEADER,
            found: Found::BadHeader,
            more: false,
        },
        Some(f) => Move {
            state: State::Records(f),
            used: FILE_HEADER,
            found: Found::Nothing,
            more: false,
        },
    }
}

// Passes over the bytes of a refused record, of which `left` are to come.
#[tactic(auto, unfolding(crate::specs::Parts::move_of))]
fn move_passing(f: Form, time: u64, why: RecordRefusal, left: usize, s: &[u8]) -> Move
    ensures { result ≡ move_of (State.Passing f time why left) s.now }
{
    let n = s.len();
    if n < left {
        return Move {
            state: State::Passing {
                form: f,
                time,
                why,
                left: left - n,
            },
            used: n,
            found: Found::Nothing,
            more: true,
        };
    }
    Move {
        state: State::Records(f),
        used: left,
        found: Found::Refused { time, why },
        more: false,
    }
}

/// One move on the bytes at hand: what is found at their start, and how many of them it used. A caller makes moves, each on what the
/// one before left, until one says `more`; then it keeps what was not used, puts the next bytes behind it, and goes on.
/// What is kept so is less than a record's header and the longest frame, 1,534 bytes (`KeepsLittle`, specs/Meaning).
#[tactic(auto, unfolding(crate::specs::Parts::move_of))]
pub fn next_move(st: State, s: &[u8]) -> Move
    ensures { result ≡ move_of st s.now }
{
    match st {
        State::Start => move_header(s),
        State::Records(f) => move_record(f, s),
        State::Passing {
            form,
            time,
            why,
            left,
        } => move_passing(form, time, why, left, s),
        State::Done => Move {
            state: State::Done,
            used: s.len(),
            found: Found::Nothing,
            more: true,
        },
    }
}

/// What the end of the capture adds, where `n` bytes were not used and no more come.
#[tactic(auto, unfolding(crate::specs::Parts::end_of))]
pub fn end_of(st: State, n: usize) -> End
    ensures { result ≡ end_of st n }
{
    match st {
        State::Start => End::BadHeader,
        State::Records(_) => { if n == 0 { End::Whole } else { End::Cut } }
        State::Passing { .. } => End::Cut,
        State::Done => End::Whole,
    }
}
