// The columns of the page: what was asked, what was answered, and the records after it.
use crate::bench::Judged;
use crate::words;
use crate::words::RefusalWords;
use events::ROOM;
use numbers::read16;
use places::place::{age, phase_of, state};
use places::{PlaceWords, RulePlaces};
use records::RecordWords;
use std::fmt::{Display, Formatter, InlineText, Write};
use std::{fmt, io};
use steps::Answer;
use table::words::{RuleWords, TableWords, bucket, tracking};
use table::{RULES, Rate, Room};
use verdicts::{BLOCKED, CountWords, LEVEL0, LEVEL1, PASSED};

pub(crate) fn title(rt: &impl Print) -> io::Result<()> {
    println!(rt;
        "\n     {:<30}{:>7}  {:<24}{:>8}  {:<40}records",
        "frame", "reading", "verdict", "rule", "event"
    )
}

// The example that a frame belongs to.
#[derive(Clone, Copy)]
pub(crate) struct Example(pub Option<u8>);

impl Display for Example {
    fn fmt<W: Write>(&self, f: &mut Formatter<W>) -> fmt::Result {
        match self.0 {
            None => write!(f, "     "),
            Some(n) => write!(f, "M{n:<4}"),
        }
    }
}

// A text that is not allocated. No line of the page is so long.
pub(crate) type Text = InlineText<512>;

// A refusal, or the verdict, the deciding rule and the event.
pub(crate) fn answer(j: &Judged, t: &TableWords) -> Text {
    match j.answer {
        Err(r) => Text::of(RefusalWords(r, t)),
        Ok(a) => {
            let verdict = Text::of(format_args!(
                "{} {}",
                a.verdict.number(),
                words::verdict(a.verdict)
            ));
            let rule = decider(a.rule);
            Text::of(format_args!(
                "{:<24}{:>8}  {}",
                verdict.as_str(),
                rule.as_str(),
                EventWords(a.length, &j.event)
            ))
        }
    }
}

fn decider(id: u16) -> Text {
    if id == Answer::NO_RULE {
        Text::of("default")
    } else {
        Text::of(id)
    }
}

// The event of so many bytes. Two spaces stand behind the longest too.
#[derive(Clone, Copy)]
struct EventWords<'a>(usize, &'a [u8; ROOM]);

impl Display for EventWords<'_> {
    fn fmt<W: Write>(&self, f: &mut Formatter<W>) -> fmt::Result {
        let EventWords(length, event) = *self;
        if length == 0 {
            return write!(f, "none");
        }
        let number = read16(event, 0);
        let id = read16(event, 2);
        write!(f, "{}{number} of rule {id}  ", words::event(number))
    }
}

// The records of the rules that have decided a frame: of each its bucket of this socket, and its conversations.
#[derive(Clone, Copy)]
pub(crate) struct Records<'a> {
    pub table: &'a TableWords,
    pub words: &'a RecordWords,
    pub socket: u8,
}

impl Display for Records<'_> {
    fn fmt<W: Write>(&self, f: &mut Formatter<W>) -> fmt::Result {
        for k in 0..RULES {
            let counts = &self.words.counts[k];
            if counts[PASSED] != 0 || counts[BLOCKED] != 0 {
                let r = &self.table[k];
                level(f, bucket(r), counts, self.socket)?;
                conversations(f, tracking(r), &self.words.places[k])?;
            }
        }
        Ok(())
    }
}

// In frames, of which a level counts the thousandths.
fn level<W: Write>(
    f: &mut Formatter<W>,
    bucket: Option<Rate>,
    counts: &CountWords,
    socket: u8,
) -> fmt::Result {
    let Some(rate) = bucket else {
        return Ok(());
    };
    let n = counts[if socket == 0 { LEVEL0 } else { LEVEL1 }];
    if n % 100 == 0 {
        write!(f, "bucket {}.{} of {}  ", n / 1000, n / 100 % 10, rate.size)
    } else {
        write!(f, "bucket {}.{:03} of {}  ", n / 1000, n % 1000, rate.size)
    }
}

fn conversations<W: Write>(
    f: &mut Formatter<W>,
    tracking: Option<Room>,
    places: &RulePlaces,
) -> fmt::Result {
    let Some(room) = tracking else {
        return Ok(());
    };
    for p in places.iter().take(usize::from(room.places)) {
        place(f, p)?;
    }
    Ok(())
}

// Free, or a conversation's state and age.
fn place<W: Write>(f: &mut Formatter<W>, p: &PlaceWords) -> fmt::Result {
    let n = state(p);
    if n == 0 {
        write!(f, "{:<16}", "free")
    } else {
        write!(f, "{}{:>4} ms  ", words::phase(phase_of(n)), age(p))
    }
}
