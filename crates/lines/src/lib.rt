// The line that the program `replay` prints for a record: change request 4/12.
#![tactic(auto)]

mod digits;

ghost use Rattle.std.specs.Prelude.{[], ◌∷◌, ◌++◌, ◌≤◌, length};
ghost use Rattle.numbers.specs.Lists.{Wrote};
ghost use Rattle.lines.specs.Decimal.{decimal};
ghost use Rattle.lines.specs.Lines.{row, letter_r, two_words, text_of, line_room};

use digits::{put, word};

// What a line tells: the file cut short, a bad file header, a record refused or judged. A time is in milliseconds, an event 0 where there is none, and no Option: the line prints 0 (definition event_number).
#[derive(Clone, Copy)]
pub enum Line {
    Cut,
    BadHeader,
    Refused {
        place: u64,
        time: u64,
        number: u8,
    },
    Judged {
        place: u64,
        time: u64,
        verdict: u8,
        rule: u16,
        event: u16,
    },
}

impl Line {
    // The refusal of a bad or short file header.
    pub const BAD_HEADER: u8 = 8;
}

// The space that one line may take: five numbers of at most 20 digits, and what stands between them.
pub const ROOM: usize = 128;

// The room is a clause of each that writes a line, and no type: callers lend what is left of a buffer, which is any number of bytes from 128 on.
fn cut_short(out: &mut [u8]) -> usize
    requires { line_room ≤ length out.old }
    ensures { Wrote (text_of Line.Cut) out.old out.new result }
{
    put(b"cut\n", out)
}

// A refusal that is alone on its line.
fn alone(number: u8, out: &mut [u8]) -> usize
    requires { line_room ≤ length out.old }
    ensures { Wrote (row (letter_r ∷ decimal number ∷ [])) out.old out.new result }
{
    let n = put(b"R ", out);
    n + word(u64::from(number), b'\n', &mut out[n..])
}

// Two numbers, a space behind each.
fn spaced(a: u64, b: u64, out: &mut [u8]) -> usize
    requires { 42 ≤ length out.old }
    ensures text { Wrote (two_words a b) out.old out.new result }
    ensures most { result ≤ 42 }
{
    let n = word(a, b' ', out);
    n + word(b, b' ', &mut out[n..])
}

fn refused(place: u64, time: u64, number: u8, out: &mut [u8]) -> usize
    requires { line_room ≤ length out.old }
    ensures { Wrote (text_of (Line.Refused place time number)) out.old out.new result }
{
    let n = spaced(place, time, out);
    let m = n + put(b"R ", &mut out[n..]);
    m + word(u64::from(number), b'\n', &mut out[m..])
}

fn judged(place: u64, time: u64, verdict: u8, rule: u16, event: u16, out: &mut [u8]) -> usize
    requires { line_room ≤ length out.old }
    ensures { Wrote (text_of (Line.Judged place time verdict rule event)) out.old out.new result }
{
    let n = spaced(place, time, out);
    let m = n + spaced(u64::from(verdict), u64::from(rule), &mut out[n..]);
    m + word(u64::from(event), b'\n', &mut out[m..])
}

// Writes the line to the start of the space, and nothing beyond it: called for each record with what is left of a buffer, at least ROOM bytes.
pub fn write(l: Line, out: &mut [u8]) -> usize
    requires { line_room ≤ length out.old }
    ensures { Wrote (text_of l) out.old out.new result }
{
    match l {
        Line::Cut => cut_short(out),
        Line::BadHeader => alone(Line::BAD_HEADER, out),
        Line::Refused {
            place,
            time,
            number,
        } => refused(place, time, number, out),
        Line::Judged {
            place,
            time,
            verdict,
            rule,
            event,
        } => judged(place, time, verdict, rule, event, out),
    }
}
