// Reads a classic pcap capture by parts. It does no input and no output: the caller lends the bytes at hand.
#![tactic(auto)]

ghost use Rattle.std.specs.Prelude.{◌≡◌};
ghost use Rattle.capture.specs.Capture.{refusal_number};

pub mod fields;
pub mod headers;
pub mod keep;
pub mod moves;

// Which of the four forms a capture has: its byte order, and whether its times are in nanoseconds.
#[derive(Clone, Copy)]
pub struct Form {
    pub big: bool,
    pub nano: bool,
}

// What a record's header says: the time in ms, the bytes that are stored, and those that there were on the wire.
#[derive(Clone, Copy)]
pub struct Head {
    pub time: u64,
    pub stored: usize,
    pub wire: usize,
}

// Why a record is refused whatever its bytes: its frame would be longer than any that is judged, or it is stored shorter than it was on the wire.
#[derive(Clone, Copy)]
pub enum RecordRefusal {
    TooLong,
    StoredShort,
}

impl RecordRefusal {
    pub const TOO_LONG: u8 = 2;

    pub const STORED_SHORT: u8 = 7;

    pub fn number(self) -> u8
        ensures { result ≡ refusal_number self }
    {
        match self {
            RecordRefusal::TooLong => RecordRefusal::TOO_LONG,
            RecordRefusal::StoredShort => RecordRefusal::STORED_SHORT,
        }
    }
}

// What is kept between two calls, beside the bytes that were not used.
#[derive(Clone, Copy)]
pub enum State {
    // the file header is to come
    Start,
    // a record is to come
    Records(Form),
    // the bytes of a refused record are passed over, of which so many are to come
    Passing {
        form: Form,
        time: u64,
        why: RecordRefusal,
        left: usize,
    },
    // nothing is to be found any more
    Done,
}

// What a move found; a frame's bytes stand behind the 16 of its record's header.
#[derive(Clone, Copy)]
pub enum Found {
    Nothing,
    BadHeader,
    Refused { time: u64, why: RecordRefusal },
    Frame { time: u64, len: usize },
}

// A move: how many of the bytes at hand it used; `more` says that nothing can be done before more bytes come.
#[derive(Clone, Copy)]
pub struct Move {
    pub state: State,
    pub used: usize,
    pub found: Found,
    pub more: bool,
}

// How the capture ends: behind a whole record, or with a file header or a record that is cut short.
#[derive(Clone, Copy)]
pub enum End {
    Whole,
    BadHeader,
    Cut,
}
