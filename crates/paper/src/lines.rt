// The lines of the page.
ghost use Rattle.std.specs.Prelude.{◌≡◌, length, get_or};
ghost use Rattle.paper.specs.Worked.{no_line, lines};

use crate::{Expected, Frame, Line};

pub const LINES: usize = 31;

// How many there are.
#[tactic(auto, unfolding(crate::specs::Worked::lines))]
pub fn count() -> usize
    ensures { result ≡ length lines }
{
    LINES
}

const PASSED_10: Expected = Expected::Quiet {
    verdict: 0,
    rule: 10,
};

const PASSED_20: Expected = Expected::Quiet {
    verdict: 0,
    rule: 20,
};

const PASSED_30: Expected = Expected::Quiet {
    verdict: 0,
    rule: 30,
};

const BLOCKED_40: Expected = Expected::Quiet {
    verdict: 2,
    rule: 40,
};

const OVER_RATE: Expected = Expected::Event {
    verdict: 3,
    rule: 30,
    number: 64,
    named: 30,
    length: 10,
};

const NO_CONVERSATION: Expected = Expected::Event {
    verdict: 41,
    rule: 20,
    number: 63,
    named: 20,
    length: 4,
};

const NO_PLACE_FREE: Expected = Expected::Event {
    verdict: 5,
    rule: 20,
    number: 61,
    named: 20,
    length: 28,
};

const TCP_OF_20: Expected = Expected::Event {
    verdict: 6,
    rule: 65535,
    number: 54,
    named: 20,
    length: 28,
};

const UDP_OF_10: Expected = Expected::Event {
    verdict: 6,
    rule: 65535,
    number: 55,
    named: 10,
    length: 12,
};

const SOMEIP_OF_10: Expected = Expected::Event {
    verdict: 6,
    rule: 65535,
    number: 56,
    named: 10,
    length: 20,
};

const TOO_SHORT: Expected = Expected::Refused(1);

const TOO_LONG: Expected = Expected::Refused(2);

// A line in one row: example, fresh, reading, frame, what is expected. A Row beside Line, so that a line of the page is one line here.
#[derive(Clone, Copy)]
struct Row(u8, bool, u64, Frame, Expected);

const PAGE: [Row; LINES] = [
    // "M1 A: 0, rule 10. M2 A with four zero bytes added: the same. M3 A with type 0x81: 6. M4 A less its last byte: 6".
    Row(1, true, 0, Frame::A, PASSED_10),
    Row(2, true, 0, Frame::Padded, PASSED_10),
    Row(3, true, 0, Frame::Type81, SOMEIP_OF_10),
    Row(4, true, 0, Frame::Cut, TCP_OF_20),
    // "M5 ether 0x0806 at 0, 0, 0, 1000, 2000, 4000: verdicts 0 0 3 3 3 0".
    Row(5, true, 0, Frame::Ether0806, PASSED_30),
    Row(5, false, 0, Frame::Ether0806, PASSED_30),
    Row(5, false, 0, Frame::Ether0806, OVER_RATE),
    Row(5, false, 1000, Frame::Ether0806, OVER_RATE),
    Row(5, false, 2000, Frame::Ether0806, OVER_RATE),
    Row(5, false, 4000, Frame::Ether0806, PASSED_30),
    // "M6 valid TCP from 443: ACK first, 4; SYN+ACK then ACK, 0 and 0", and "M6's first becomes 41".
    Row(6, true, 0, Frame::Ack1, NO_CONVERSATION),
    Row(6, false, 0, Frame::SynAck1, PASSED_20),
    Row(6, false, 0, Frame::Ack1, PASSED_20),
    // "M7 two held, a third SYN: 5. After 999 ms idle still held; after 1,000 removed, and the SYN passes".
    Row(7, true, 0, Frame::Syn1, PASSED_20),
    Row(7, false, 0, Frame::Syn2, PASSED_20),
    Row(7, false, 0, Frame::Syn3, NO_PLACE_FREE),
    Row(7, false, 999, Frame::Syn3, NO_PLACE_FREE),
    Row(7, false, 1000, Frame::Syn3, PASSED_20),
    // "M8 readings 1,000,000, 0, 500".
    Row(8, true, 1000000, Frame::Syn1, PASSED_20),
    Row(8, false, 0, Frame::Ether0806, PASSED_30),
    Row(8, false, 500, Frame::Ether0806, PASSED_30),
    // "M9 A with destination port 68: 2, rule 40, no event; with 1024: 6, UDP event naming rule 10".
    Row(9, true, 0, Frame::Port68, BLOCKED_40),
    Row(9, false, 0, Frame::Port1024, UDP_OF_10),
    // "M10 13 bytes: 1; 17 bytes tagged: 1; 1,518 judged; 1,519: 2".
    Row(10, true, 1, Frame::First13, TOO_SHORT),
    Row(10, false, 2, Frame::Tagged17, TOO_SHORT),
    Row(10, false, 3, Frame::Longest, PASSED_10),
    Row(10, false, 4, Frame::TooLong, TOO_LONG),
    // "M11 A and an 0x0806 frame at one reading, both orders".
    Row(11, true, 500, Frame::A, PASSED_10),
    Row(11, false, 500, Frame::Ether0806, PASSED_30),
    Row(11, true, 500, Frame::Ether0806, PASSED_30),
    Row(11, false, 500, Frame::A, PASSED_10),
];

// What stands beyond the last line: example 0, which is none, and no Option (definition no_line).
const NO_LINE: Row = Row(0, false, 0, Frame::A, Expected::Refused(0));

fn line_of(r: Row) -> Line
    ensures { result ≡ record { example = r.0; fresh = r.1; reading = r.2; frame = r.3; expected = r.4 } }
{
    let Row(example, fresh, reading, frame, expected) = r;
    Line {
        example,
        fresh,
        reading,
        frame,
        expected,
    }
}

// The line at a place, from 0 on; beyond the last there is no example.
pub fn line(k: usize) -> Line
    ensures { result ≡ get_or lines k no_line }
{
    line_of(PAGE.get(k).copied().unwrap_or(NO_LINE))
}
