// Each call: its bytes are taken from the input, the call is made, and its answer is printed.
ghost use Rattle.std.specs.Prelude.{◌≤◌};

use crate::image::{RECORDS, TABLE, records_of, table_of};
use crate::input::Input;
use crate::{Stop, print};
use numbers::{read16, read32, read64};
use records::RecordWords;
use std::io::{Read, Write};
use table::words::{ROW_WORDS, ROWS, TableWords};

// The longest event space and the longest frame of a call.
const SPACE: usize = 512;

const FRAME: usize = 2048;

// A byte of the event space that was not written, so that one that was shows.
pub(crate) const UNWRITTEN: u8 = 170;

// One frame judged so many times, at readings that rise by a step.
#[derive(Clone, Copy)]
struct Many {
    times: u32,
    step: u64,
}

const ONCE: Many = Many { times: 1, step: 0 };

// What is held from one call to the next: the table, the records, and the socket that frames come on.
#[derive(Clone, Copy)]
pub(crate) struct Held {
    table: TableWords,
    records: RecordWords,
    socket: u8,
}

impl Held {
    pub(crate) fn new() -> Held {
        Held {
            table: [[0; ROW_WORDS]; ROWS],
            records: RecordWords::fresh(0),
            socket: 0,
        }
    }

    // The letters of docs/CASES.md choose the call. Input and output are handed apart: each call takes its bytes first, and prints when it is made.
    pub(crate) fn call(
        &mut self,
        letter: u8,
        input: &mut Input<impl Read>,
        out: &mut impl Write,
    ) -> Result<(), Stop> {
        match letter {
            b'T' => self.lay_table(input),
            b'R' => self.load(input),
            b'C' => Ok(print::done('C', firewall::check(&self.table, &self.records), out)?),
            b'F' => self.fresh(input, out),
            b'V' => self.switch(input, out),
            b'S' => self.set_socket(input),
            b'J' => self.judge(ONCE, input, out),
            b'B' => self.pace(input, out),
            b'L' => layers_of(input, out),
            b'P' => Ok(print::all_records(&self.records, out)?),
            _ => Err(Stop::NoCall),
        }
    }

    fn lay_table(&mut self, input: &mut Input<impl Read>) -> Result<(), Stop> {
        input.take(0, TABLE)?;
        lay::table(table_of(&input.image), &mut self.table);
        Ok(())
    }

    fn load(&mut self, input: &mut Input<impl Read>) -> Result<(), Stop> {
        input.take(0, RECORDS)?;
        records_of(&input.image, &mut self.records);
        Ok(())
    }

    fn set_socket(&mut self, input: &mut Input<impl Read>) -> Result<(), Stop> {
        input.take(0, 1)?;
        self.socket = input.image[0];
        Ok(())
    }

    fn fresh(&mut self, input: &mut Input<impl Read>, out: &mut impl Write) -> Result<(), Stop> {
        input.take(0, 8)?;
        let answer = firewall::fresh(&self.table, read64(&input.image, 0), &mut self.records);
        Ok(print::done('F', answer, out)?)
    }

    fn switch(&mut self, input: &mut Input<impl Read>, out: &mut impl Write) -> Result<(), Stop> {
        input.take(0, 1)?;
        let answer = firewall::switch(&self.table, usize::from(input.image[0]), &mut self.records);
        Ok(print::done('V', answer, out)?)
    }

    fn pace(&mut self, input: &mut Input<impl Read>, out: &mut impl Write) -> Result<(), Stop> {
        input.take(0, 8)?;
        let many = Many {
            times: read32(&input.image, 0),
            step: u64::from(read32(&input.image, 4)),
        };
        if many.times == 0 {
            return Err(Stop::NoCall);
        }
        self.judge(many, input, out)
    }

    fn judge(
        &mut self,
        many: Many,
        input: &mut Input<impl Read>,
        out: &mut impl Write,
    ) -> Result<(), Stop> {
        input.take(0, 12)?;
        let room = usize::from(read16(&input.image, 8));
        let length = usize::from(read16(&input.image, 10));
        if room > SPACE || length > FRAME {
            return Err(Stop::NoCall);
        }
        input.take(12, length)?;
        self.judged(
            many,
            read64(&input.image, 0),
            &input.image[12..12 + length],
            room,
            out,
        )
    }

    // All calls; the last answer is printed.
    fn judged(
        &mut self,
        many: Many,
        reading: u64,
        frame: &[u8],
        room: usize,
        out: &mut impl Write,
    ) -> Result<(), Stop>
        requires { room ≤ 512 }
    {
        let last = self.judge_earlier(many, reading, frame, room);
        let mut space = [UNWRITTEN; SPACE];
        let answer = firewall::judge(
            &self.table,
            &mut self.records,
            self.socket,
            frame,
            last,
            &mut space[..room],
        );
        Ok(print::judged(answer, &space, out)?)
    }

    // All calls but the last; what is left is the reading of that one. A reading that would pass the highest stays.
    fn judge_earlier(&mut self, many: Many, first: u64, frame: &[u8], room: usize) -> u64
        requires { room ≤ 512 }
    {
        let mut reading = first;
        for _ in 1..many.times {
            let mut space = [UNWRITTEN; SPACE];
            // Of these calls no answer is printed: the records that they leave tell on.
            let _ = firewall::judge(
                &self.table,
                &mut self.records,
                self.socket,
                frame,
                reading,
                &mut space[..room],
            );
            reading = reading.checked_add(many.step).unwrap_or(reading);
        }
        reading
    }
}

fn layers_of(input: &mut Input<impl Read>, out: &mut impl Write) -> Result<(), Stop> {
    input.take(0, 2)?;
    let length = usize::from(read16(&input.image, 0));
    if length > FRAME {
        return Err(Stop::NoCall);
    }
    input.take(2, length)?;
    let frame = &input.image[2..2 + length];
    Ok(print::shown(frame, layers::read(frame), out)?)
}
