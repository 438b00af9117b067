// A table, and records that it judges frames with, each on a line of the page.
use crate::page;
use crate::page::{Example, Records, Text};
use crate::words::RefusalWords;
use events::ROOM;
use firewall::Refusal;
use records::RecordWords;
use std::fmt::Display;
use std::io;
use steps::Answer;
use table::Table;
use table::words::{ROW_WORDS, ROWS, TableWords};

// "captures and M1 to M11 use socket 0", and so do the frames beside them, but for those of two sockets.
pub(crate) const SOCKET: u8 = 0;

// The words of a table.
pub(crate) fn laid(t: Table) -> TableWords {
    let mut w = [[0; ROW_WORDS]; ROWS];
    lay::table(t, &mut w);
    w
}

// A frame that is judged: its example, where it belongs to one, and the words that it goes by; the socket on which it comes, and the reading.
#[derive(Clone, Copy)]
pub(crate) struct Asked<'a> {
    pub example: Option<u8>,
    pub what: &'a str,
    pub socket: u8,
    pub frame: &'a [u8],
    pub reading: u64,
}

impl<'a> Asked<'a> {
    // Beside the worked set, at reading 0.
    pub(crate) fn beside(what: &'a str, frame: &'a [u8]) -> Asked<'a> {
        Asked {
            example: None,
            what,
            socket: SOCKET,
            frame,
            reading: 0,
        }
    }
}

// What was answered, and the bytes of its event.
#[derive(Clone, Copy)]
pub(crate) struct Judged {
    pub answer: Result<Answer, Refusal>,
    pub event: [u8; ROOM],
}

// Where the page is printed, the table, and the records, which every call is lent.
#[derive(Drop)]
pub(crate) struct Bench<'a, R> {
    pub rt: &'a R,
    pub table: &'a TableWords,
    pub words: RecordWords,
}

impl<'a, R: Print> Bench<'a, R> {
    pub(crate) fn new(rt: &'a R, table: &'a TableWords) -> Bench<'a, R> {
        Bench {
            rt,
            table,
            words: RecordWords::fresh(0),
        }
    }

    // A fresh record, or a line that says why there is none.
    pub(crate) fn begin(&mut self) -> io::Result<()> {
        match firewall::fresh(self.table, 0, &mut self.words) {
            Ok(()) => Ok(()),
            Err(r) => println!(self.rt; "{}", RefusalWords(r, self.table)),
        }
    }

    pub(crate) fn judge(&mut self, asked: Asked<'_>) -> Judged {
        let mut event = [0; ROOM];
        let answer = firewall::judge(
            self.table,
            &mut self.words,
            asked.socket,
            asked.frame,
            asked.reading,
            &mut event,
        );
        Judged { answer, event }
    }

    // The line of a frame, with these words behind it. Spaces at its end are not printed.
    pub(crate) fn print(
        &self,
        asked: Asked<'_>,
        judged: &Judged,
        last: impl Display + Drop,
    ) -> io::Result<()> {
        let answer = page::answer(judged, self.table);
        let line = Text::of(format_args!(
            "{}{:<30}{:>7}  {:<74}{last}",
            Example(asked.example),
            asked.what,
            asked.reading,
            answer.as_str()
        ));
        println!(self.rt; "{}", line.as_str().trim_end())
    }

    // A frame judged, and its line; the records behind it are those of its socket, unless it is refused, which leaves them as they were.
    pub(crate) fn show(&mut self, asked: Asked<'_>) -> io::Result<Judged> {
        let judged = self.judge(asked);
        if judged.answer.is_err() {
            self.print(asked, &judged, "")?;
            return Ok(judged);
        }
        let records = Records {
            table: self.table,
            words: &self.words,
            socket: asked.socket,
        };
        self.print(asked, &judged, records)?;
        Ok(judged)
    }
}
