// The lines of the records that are whole in the bytes at hand.
ghost use Rattle.std.specs.Prelude.{◌≡◌, ◌+◌, ◌≤◌, ◌<◌, length};
ghost use Rattle.numbers.specs.Lists.{Wrote};
ghost use Rattle.table.specs.Words.{table_in};
ghost use Rattle.capture.specs.Parts.{AtHand, items_in};
ghost use Rattle.lines.specs.Lines.{line_room};
ghost use Rattle.recording.specs.Run.{run, text_of_all, end_lines};
ghost use Rattle.recording.specs.Feed.{Ready, place_after, Tells, room_for, feeds, fed_of, one_more};

use crate::Fed;
use crate::judging::{begin, judge};
use capture::moves::{RECORD_HEADER, next_move};
use capture::{End, Found, State};
use lines::{Line, ROOM, write};
use records::RecordWords;
use table::words::TableWords;

// The place of the record after what was found.
fn next_place(place: u64, f: Found) -> u64
    requires { place + 1 < 18446744073709551616 }
    ensures { result ≡ place_after place f }
{
    match f {
        Found::Nothing | Found::BadHeader => place,
        Found::Refused { .. } | Found::Frame { .. } => place + 1,
    }
}

// What was found is judged, and its line is written to the start of the space; how many bytes it has.
fn tell(
    t: &TableWords,
    place: u64,
    f: Found,
    s: &[u8],
    words: &mut RecordWords,
    out: &mut [u8],
) -> usize
    requires ready { Ready (table_in t.now) words.old place 1 }
    requires hand { AtHand f s.now }
    requires room { line_room ≤ length out.old }
    ensures { Tells (table_in t.now) (run place words.old) (items_in f s.now) words.new out.old out.new result }
{
    match f {
        Found::Nothing => 0,
        Found::BadHeader => write(Line::BadHeader, out),
        Found::Refused { time, why } => {
            begin(t, place, time, words);
            let number = why.number();
            write(
                Line::Refused {
                    place,
                    time,
                    number,
                },
                out,
            )
        }
        Found::Frame { time, len } => {
            let frame = &s[RECORD_HEADER..RECORD_HEADER + len];
            write(judge(t, place, time, frame, words), out)
        }
    }
}

// One move, and the line of what it found.
fn feed_one(
    t: &TableWords,
    st: State,
    place: u64,
    s: &[u8],
    words: &mut RecordWords,
    out: &mut [u8],
) -> Fed
    requires ready { Ready (table_in t.now) words.old place 1 }
    requires room { line_room ≤ length out.old }
    ensures { feeds result words.new out.new
        ≡ fed_of (table_in t.now) 1 st (run place words.old) s.now out.old }
{
    let m = next_move(st, s);
    let count = tell(t, place, m.found, s, words, out);
    Fed {
        state: m.state,
        place: next_place(place, m.found),
        used: m.used,
        count,
        more: m.more,
    }
}

// One more move, behind those of a call that left `f`.
fn feed_next(t: &TableWords, f: Fed, s: &[u8], words: &mut RecordWords, out: &mut [u8]) -> Fed
    requires ready { Ready (table_in t.now) words.old f.place 1 }
    requires room { (f.used ≤ length s.now) × (f.count + line_room ≤ length out.old) }
    ensures { feeds result words.new out.new
        ≡ one_more (table_in t.now) f words.old s.now out.old }
{
    let m = feed_one(
        t,
        f.state,
        f.place,
        &s[f.used..],
        words,
        &mut out[f.count..],
    );
    Fed {
        used: f.used + m.used,
        count: f.count + m.count,
        ..m
    }
}

/// Judges the records that are whole in the bytes `s` at hand, in their turn, and writes a line for each to the start of `out`, by as many moves as
/// lines of 128 bytes have room there; a space under 128 bytes makes none. A caller writes the first `count` bytes of `out` away and calls
/// again with what `used` left of `s`, until `more` is true; then it keeps the rest (`capture::keep`, less than 1,534 bytes), reads behind it, and goes on.
/// The first call has `State::Start` and place 0; at the end of the capture `finish` adds its line.
/// However the parts are cut, the lines together are those of the whole (`ByParts`, specs/ByParts).
pub fn feed(
    t: &TableWords,
    st: State,
    place: u64,
    s: &[u8],
    words: &mut RecordWords,
    out: &mut [u8],
) -> Fed
    requires { Ready (table_in t.now) words.old place (room_for out.old) }
    ensures { feeds result words.new out.new
        ≡ fed_of (table_in t.now) (room_for out.old) st (run place words.old) s.now out.old }
{
    let mut f = Fed {
        state: st,
        place,
        used: 0,
        count: 0,
        more: false,
    };
    for _move in 0..out.len() / ROOM {
        f = feed_next(t, f, s, words, out);
        if f.more {
            return f;
        }
    }
    f
}

/// The line that the end of the capture adds, written to the start of `out`; how many bytes it has, 0 where there is none.
#[tactic(auto, unfolding(crate::specs::Run::text_of_all))]
pub fn finish(e: End, out: &mut [u8]) -> usize
    requires { line_room ≤ length out.old }
    ensures { Wrote (text_of_all (end_lines e)) out.old out.new result }
{
    match e {
        End::Whole => 0,
        End::BadHeader => write(Line::BadHeader, out),
        End::Cut => write(Line::Cut, out),
    }
}
