// Reads a stream of calls, makes each through the entry points, and prints what they answered (docs/CASES.md).
#![tactic(auto)]

ghost use Rattle.std.specs.Prelude.{◌≡◌};
ghost use Rattle.cases.specs.declared.Stop.TheVariants as stop;

mod calls;
mod image;
mod input;
mod print;

use calls::Held;
use input::Input;
use std::io;
use std::io::{BufReader, BufWriter, Read, Write};

// How many bytes of the input and of the output are held at a time.
const BUFFER: usize = 65536;

// Why the calls end before the input does: bytes that are no call, or an answer that could not be printed.
pub(crate) enum Stop {
    NoCall,
    Output(io::Error),
}

impl From<io::Error> for Stop {
    ghost from_gives = { λ e s. s ≡ stop.Output e };

    fn from(e: io::Error) -> Stop {
        Stop::Output(e)
    }
}

// The calls one after the other. Nothing says that an input ends, so the turns are counted, to a number that no run uses up.
fn run(input: &mut Input<impl Read>, out: &mut impl Write) -> Result<(), Stop> {
    let mut held = Held::new();
    for _ in 0..u64::MAX {
        let Some(letter) = input.next() else {
            return Ok(());
        };
        held.call(letter, input, out)?;
    }
    Ok(())
}

fn main(rt: HostRuntime) -> io::Result<()> {
    let mut input = Input::new(BufReader::with_capacity(rt.alloc(), BUFFER, rt.stdin())?);
    let mut out = BufWriter::with_capacity(rt.alloc(), BUFFER, rt.stdout())?;
    match run(&mut input, &mut out) {
        Ok(()) => {}
        Err(Stop::NoCall) => writeln!(out, "?")?,
        Err(Stop::Output(e)) => return Err(e),
    }
    out.flush()
}
