// Several messages in one datagram under table T: beside the worked set, for a person who reads them for the first time.
ghost use Rattle.std.specs.Prelude.{◌≤◌, ◌<◌};

use crate::bench::{Asked, Bench, Judged};
use numbers::read16;
use paper::Frame;
use paper::frames::{MOST, frame};
use std::fmt::{Display, Formatter, Write};
use std::{fmt, io};

// Where each stands in frame A.
const TOTAL_LENGTH: usize = 16;

const CHECKSUM: usize = 24;

const UDP_LENGTH: usize = 38;

const PAYLOAD: usize = 42;

// The bytes of each message; the last byte of its Length, and its type, from its start.
const SIZE: usize = 16;

const LENGTH: usize = 7;

const TYPE: usize = 14;

// Each message is of service 0x1000, Length 8 and type 0x80.
const MESSAGE: [u8; SIZE] = [0x10, 0, 1, 0x11, 0, 0, 0, 8, 0, 1, 0, 3, 1, 1, 0x80, 0];

// A with so many messages behind its headers.
fn messages(n: usize, bytes: &mut [u8; MOST])
    requires { n ≤ 92 }
{
    frame(Frame::A, bytes);
    for k in 0..n {
        let at = PAYLOAD + SIZE * k;
        bytes[at..at + SIZE].copy_from_slice(&MESSAGE);
    }
}

// The lengths and the checksum of A for a payload of so many bytes. A has 58 bytes in all and the checksum 26,288.
fn sized(len: usize, bytes: &mut [u8; MOST])
    requires { len ≤ 1476 }
{
    let total = 28 + len as u16;
    let sum = 26288 + 58 - total;
    let udp = 8 + len as u16;
    bytes[TOTAL_LENGTH..TOTAL_LENGTH + 2].copy_from_slice(&total.to_be_bytes());
    bytes[CHECKSUM..CHECKSUM + 2].copy_from_slice(&sum.to_be_bytes());
    bytes[UDP_LENGTH..UDP_LENGTH + 2].copy_from_slice(&udp.to_be_bytes());
}

// Which message the event shows.
#[derive(Clone, Copy)]
struct Shown<'a>(&'a Judged);

impl Display for Shown<'_> {
    fn fmt<W: Write>(&self, f: &mut Formatter<W>) -> fmt::Result {
        let Judged { answer, event } = self.0;
        let Ok(a) = answer else {
            return Ok(());
        };
        if a.length == 0 {
            return Ok(());
        }
        let service = read16(event, 4);
        if service == 0 {
            return write!(f, "shows no message");
        }
        write!(
            f,
            "shows service 0x{service:04x}, type 0x{:02x}",
            event[4 + TYPE]
        )
    }
}

// So many messages and bytes left over, with one byte of the messages changed.
fn step<R: Print>(
    bench: &mut Bench<R>,
    what: &str,
    n: usize,
    over: usize,
    at: usize,
    value: u8,
) -> io::Result<()>
    requires n { n ≤ 92 }
    requires over { over ≤ 1 }
    requires at { at < 1472 }
{
    let len = SIZE * n + over;
    let mut bytes = [0; MOST];
    messages(n, &mut bytes);
    sized(len, &mut bytes);
    bytes[PAYLOAD + at] = value;
    let asked = Asked::beside(what, &bytes[..PAYLOAD + len]);
    let judged = bench.judge(asked);
    bench.print(asked, &judged, Shown(&judged))
}

// From a fresh record: rule 10 wants service 0x1000 and type 0x80 of every message.
// Calls and not a list: each is proved to stay within the frame by its own numbers, which a list that is walked does not show.
pub(crate) fn bundles<R: Print>(bench: &mut Bench<R>) -> io::Result<()> {
    println!(bench.rt;
        "\nseveral messages in one datagram, to port 30501, each of service 0x1000 and type 0x80"
    )?;
    bench.begin()?;
    step(bench, "one", 1, 0, TYPE, 0x80)?;
    step(bench, "two", 2, 0, TYPE, 0x80)?;
    step(
        bench,
        "two, the second of type 0x81",
        2,
        0,
        SIZE + TYPE,
        0x81,
    )?;
    step(bench, "two, one byte left over", 2, 1, TYPE, 0x80)?;
    step(bench, "two, the second's Length 7", 2, 0, SIZE + LENGTH, 7)?;
    step(bench, "92", 92, 0, TYPE, 0x80)?;
    step(
        bench,
        "92, the last of type 0x81",
        92,
        0,
        91 * SIZE + TYPE,
        0x81,
    )
}
