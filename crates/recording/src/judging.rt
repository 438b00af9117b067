// One frame of a capture judged, with nothing checked again.
ghost use Rattle.std.specs.Prelude.{◌≡◌};
ghost use Rattle.faults.specs.Faults.{fault_of};
ghost use Rattle.table.specs.Words.{table_in};
ghost use Rattle.capture.specs.Capture.{Frame};
ghost use Rattle.recording.specs.Run.{run, begun, Begun, event_number, line_of, run_by};

use events::ROOM;
use lines::Line;
use records::RecordWords;
use steps::step;
use table::words::TableWords;

// Place and words are handed apart, here and where they are fed: the words are lent and changed, the place goes on in what a call answers.
// Fresh records at the first record's time; this call checks the table, which nothing else in a run does.
pub(crate) fn begin(t: &TableWords, place: u64, time: u64, words: &mut RecordWords)
    ensures { words.new ≡ begun (table_in t.now) (run place words.old) time }
{
    if place == 0 {
        // The answer is not looked at: `begun` says what the words are, whatever it is.
        let _ = firewall::fresh(t, time, words);
    }
}

// The number at the start of an event, and 0, no Option, where there is none: the line prints 0 (definition event_number).
#[tactic(auto, unfolding(crate::specs::Run::event_number, numbers::specs::Bytes::be))]
fn event_number(length: usize, space: &[u8; ROOM]) -> u16
    ensures { result ≡ event_number length space.now }
{
    if length == 0 {
        return 0;
    }
    u16::from_be_bytes([space[0], space[1]])
}

// The line of a frame at a place, for a good table and good records once one has begun them: "captures .. use socket 0", not the second.
pub(crate) fn judge(
    t: &TableWords,
    place: u64,
    time: u64,
    frame: &[u8],
    words: &mut RecordWords,
) -> Line
    requires table { fault_of (table_in t.now) ≡ Ok tt }
    requires records { Begun (table_in t.now) (run place words.old) }
    ensures line { result ≡ line_of (table_in t.now) (run place words.old) (Frame time frame.now) }
    ensures words { words.new ≡ (run_by (table_in t.now) (run place words.old) (Frame time frame.now)).words }
{
    begin(t, place, time, words);
    // Not let .. else, which binds one case, nor ?: both cases hold something, and every way owes a line.
    let seen = match layers::see(false, frame) {
        Ok(seen) => seen,
        Err(f) => {
            return Line::Refused {
                place,
                time,
                number: f.number(),
            };
        }
    };
    let mut space = [0u8; ROOM];
    let a = step(t, &seen, time, words, &mut space);
    Line::Judged {
        place,
        time,
        verdict: a.verdict.number(),
        rule: a.rule,
        event: event_number(a.length, &space),
    }
}
