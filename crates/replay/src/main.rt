// Judges a capture on standard input under table T and prints a line a record: place, time in ms, verdict, rule and event, or its refusal.
#![tactic(auto)]

ghost use Rattle.std.specs.Prelude.{◌≡◌, true, false, ◌+◌, ◌≤◌, length, IfSome};
ghost use Rattle.std.specs.Io.KnownBytes.{Consumes, Appends, IsAtEnd};
ghost use Rattle.numbers.specs.Lists.{Wrote};
ghost use Rattle.table.specs.Words.{table_in};
ghost use Rattle.paper.specs.TableT.{table_t};
ghost use Rattle.recording.specs.Run.{run, Begun};
ghost use Rattle.recording.specs.Feed.{Ready};
ghost use Rattle.replay.specs.Position.{
  buffer_size,
  most_moves,
  standing,
  text_in,
  Sound,
  last_text,
  arrived_as,
  Came,
  is_done,
  called,
  Turned,
  is_over,
  came_in,
  first,
  RunsTo,
  Prints,
};

use capture::State;
use capture::keep::keep;
use capture::moves::end_of;
use recording::feeding::{feed, finish};
use records::RecordWords;
use std::io::{Read, Write};
use table::words::{ROW_WORDS, ROWS, TableWords};

// The bytes of the buffer that is read into, and of the one that is printed from.
const BUFFER: usize = 65536;

// Nothing says that an input ends, so the turns are counted, up to a number that no run uses up.
const TURNS: u64 = 18014398509481984;

// Between two turns: the bytes at hand are those of the buffer from `at` to `end`; `more` asks for others. What is to be printed are the first
// `count` bytes of the output. `ended` says that nothing more is to be found, `failed` that a read failed; each ends the run.
// Two flags and not one enum: `Prints` and `is_over` speak of each (specs/Position).
#[derive(Clone, Copy)]
pub struct Position {
    pub state: State,
    pub place: u64,
    pub at: usize,
    pub end: usize,
    pub more: bool,
    pub count: usize,
    pub ended: bool,
    pub failed: bool,
}

// Where the program stands: its position, the bytes that are read into, the words of the records, and the bytes that are printed from.
#[derive(Clone, Copy)]
pub struct Standing {
    pub position: Position,
    pub buffer: [u8; BUFFER],
    pub words: RecordWords,
    pub out: [u8; BUFFER],
}

// The line that the end of the capture adds.
fn last_text(st: State, kept: usize, ended: bool, out: &mut [u8; BUFFER]) -> usize
    ensures { Wrote (last_text st kept ended) out.old out.new result }
{
    if ended {
        return finish(end_of(st, kept), out);
    }
    0
}

// The position after a read behind the bytes that were kept, by how many bytes it brought; a failed one, None, adds no line.
fn arrived(p: Position, kept: usize, got: Option<usize>, out: &mut [u8; BUFFER]) -> Position
    requires { IfSome got (λ n. kept + n ≤ buffer_size) }
    ensures position { result ≡ arrived_as p kept got }
    ensures text { Wrote (last_text p.state kept result.ended) out.old out.new result.count }
{
    let came = got.unwrap_or(0);
    let ended = got == Some(0);
    let count = last_text(p.state, kept, ended, out);
    Position {
        at: 0,
        end: kept + came,
        more: came == 0,
        count,
        ended,
        failed: got.is_none(),
        ..p
    }
}

fn is_done(st: State) -> bool
    ensures { result ≡ is_done st }
{
    matches!(st, State::Done)
}

fn start() -> Position
    ensures { result ≡ first }
{
    Position {
        state: State::Start,
        place: 0,
        at: 0,
        end: 0,
        more: true,
        count: 0,
        ended: false,
        failed: false,
    }
}

fn is_over(p: Position) -> bool
    ensures { result ≡ is_over p }
{
    p.ended || p.failed
}

impl Standing {
    // Keeps what was not used, and reads behind it. That a position is sound is a clause here and below, and no fact of it: the definitions speak of every one.
    #[tactic(auto, using(crate::proofs::OnPosition::came_input))]
    fn refill<R: Read>(&mut self, from: &mut R)
        requires sound { Sound self.old.position }
        requires more { self.old.position.more ≡ true }
        ensures sound { Sound self.new.position }
        ensures came { Came self.old self.new }
        ensures input { Consumes (R.remaining from.old) (R.remaining from.new) (came_in self.old self.new) }
        ensures all { self.new.position.ended ≡ true → IsAtEnd (R.remaining from.new) }
    {
        let p = self.position;
        let kept = keep(&mut self.buffer, p.at, p.end);
        let got = from.read(&mut self.buffer[kept..]).ok();
        self.position = arrived(p, kept, got, &mut self.out);
    }

    // Judges what is whole in the bytes at hand. Behind a bad header nothing is to be found.
    fn judge_on(&mut self, t: &TableWords)
        requires sound { Sound self.old.position }
        requires ready { Ready (table_in t.now) self.old.words self.old.position.place most_moves }
        ensures { self.new ≡ called (table_in t.now) self.old }
    {
        // Taken apart, and the buffer made a & at once: only so it is known to stay while its neighbours are lent as &mut.
        let Standing {
            position: p,
            buffer,
            words,
            out,
        } = self;
        let buffer = &*buffer;
        let f = feed(t, p.state, p.place, &buffer[p.at..p.end], words, out);
        *p = Position {
            state: f.state,
            place: f.place,
            at: p.at + f.used,
            more: f.more,
            count: f.count,
            ended: is_done(f.state),
            failed: false,
            ..*p
        };
    }

    // One turn of a run: a part comes, or a call is made, and what is to be printed of it stands in `out`.
    #[tactic(auto, using(crate::proofs::OnPosition::called_room))]
    fn turn<R: Read>(&mut self, t: &TableWords, from: &mut R)
        requires sound { Sound self.old.position }
        requires ready { Ready (table_in t.now) self.old.words self.old.position.place most_moves }
        ensures sound { Sound self.new.position }
        ensures turned { Turned (table_in t.now) self.old self.new }
        ensures room { self.new.position.count ≤ length self.new.out }
        ensures places { self.new.position.place ≤ self.old.position.place + most_moves }
        ensures records { Begun (table_in t.now) (run self.new.position.place self.new.words) }
        ensures input { Consumes (R.remaining from.old) (R.remaining from.new) (came_in self.old self.new) }
        ensures all { self.new.position.ended ≡ true → is_done self.new.position.state ≡ false → IsAtEnd (R.remaining from.new) }
    {
        if self.position.more {
            self.refill(from);
        } else {
            self.judge_on(t);
        }
    }

    // What a turn left to be printed is printed. Is the output closed?
    fn print<W: Write>(&self, to: &mut W) -> bool
        requires { self.now.position.count ≤ length self.now.out }
        ensures { result ≡ false → Appends (W.contents to.old) (W.contents to.new) (text_in self.now) }
    {
        to.write_all(&self.out[..self.position.count]).is_err()
    }
}

// Turn after turn from the start to the end, and what each left is printed (`PrintsTheWhole`). Was the output closed?
fn replay<R: Read, W: Write>(t: &TableWords, s: &mut Standing, from: &mut R, to: &mut W) -> bool
    requires { table_in t.now ≡ table_t }
    ensures runs { RunsTo table_t (standing first s.old.buffer s.old.words s.old.out) s.new result }
    ensures prints { Prints s.old.words s.new.position result
        (R.remaining from.old) (R.remaining from.new) (W.contents to.old) (W.contents to.new) }
{
    s.position = start();
    for _turn in 0..TURNS {
        s.turn(t, from);
        let closed = s.print(to);
        if closed || is_over(s.position) {
            return closed;
        }
    }
    false
}

// An input that cannot be read and an output that is closed end it without a word.
fn main(rt: HostRuntime) {
    let mut t: TableWords = [[0; ROW_WORDS]; ROWS];
    lay::table(paper::rules::table(), &mut t);
    let mut s = Standing {
        position: start(),
        buffer: [0; BUFFER],
        words: RecordWords::fresh(0),
        out: [0; BUFFER],
    };
    let _ = replay(&t, &mut s, &mut rt.stdin(), &mut rt.stdout());
}
