// The input, byte by byte and by parts. A read that fails counts as the end.
ghost use Rattle.std.specs.Prelude.{◌+◌, ◌≤◌};

use crate::Stop;
use crate::image::{Image, RECORDS};
use std::io::Read;

// What is read, and the bytes of the call at hand.
#[derive(Drop)]
pub(crate) struct Input<R: Read> {
    reader: R,
    pub(crate) image: Image,
}

impl<R: Read> Input<R> {
    pub(crate) fn new(reader: R) -> Input<R> {
        Input {
            reader,
            image: [0; RECORDS],
        }
    }

    // The next byte, or none at the end of the input.
    pub(crate) fn next(&mut self) -> Option<u8> {
        let mut byte = [0];
        match self.reader.read(&mut byte) {
            Ok(1) => Some(byte[0]),
            _ => None,
        }
    }

    // The next n bytes go into the image from `to` on, unless the input is cut short.
    pub(crate) fn take(&mut self, to: usize, n: usize) -> Result<(), Stop>
        requires { to + n ≤ 33812 }
    {
        self.reader
            .read_exact(&mut self.image[to..to + n])
            .map_err(|_| Stop::NoCall)
    }
}
