// The bytes of the frames. The line below names, for all functions here, the definitions that a proof computes: a frame's bytes are what they say.
#![tactic(auto, unfolding(crate::specs::Frames::hex, crate::specs::Frames::frame_a, crate::specs::Frames::padded, crate::specs::Frames::with_type, crate::specs::Frames::with_port, crate::specs::Frames::frame0806, crate::specs::Frames::tcp, crate::specs::Frames::ack1, crate::specs::Frames::syn_ack1, crate::specs::Frames::syn1, crate::specs::Frames::syn2, crate::specs::Frames::syn3, crate::specs::Frames::first13, crate::specs::Frames::tagged17, crate::specs::Frames::frame_bytes, crate::specs::Frames::laid))]

ghost use Rattle.std.specs.Prelude.{◌≡◌, ◌≤◌, length, set};
ghost use Rattle.paper.specs.Frames.{frame_a, frame0806, tcp, first13, tagged17, frame_bytes, laid};

use crate::Frame;

// The longest frame of the set is one byte too long.
pub const MOST: usize = 1519;

// The bytes of a frame, and zeros after them.
fn lay(s: &[u8], bytes: &mut [u8; MOST])
    requires { length s.now ≤ 1519 }
    ensures { bytes.new ≡ laid s.now }
{
    *bytes = [0; MOST];
    bytes[..s.len()].copy_from_slice(s);
}

fn a(bytes: &mut [u8; MOST])
    ensures { bytes.new ≡ laid frame_a }
{
    lay(
        b"\x02\x1b\xbb\xbb\xbb\xbb\x02\x1a\xaa\xaa\xaa\xaa\x08\x00\
        \x45\x00\x00\x3a\x00\x01\x00\x00\x40\x11\x66\xb0\x0a\x00\x00\x01\x0a\x01\x00\x01\
        \x77\x1b\x77\x25\x00\x26\xe8\xb9\
        \x10\x00\x01\x11\x00\x00\x00\x16\x00\x01\x00\x03\x01\x01\x80\x00\
        \x34\x33\x39\x37\x41\x30\x38\x42\x37\x35\x30\x30\x34\x36",
        bytes,
    );
}

// A with another destination port.
fn to_port(high: u8, low: u8, bytes: &mut [u8; MOST])
    ensures { bytes.new ≡ set (set (laid frame_a) 36 high) 37 low }
{
    a(bytes);
    bytes[36] = high;
    bytes[37] = low;
}

fn ether_0806(bytes: &mut [u8; MOST])
    ensures { bytes.new ≡ laid frame0806 }
{
    lay(
        b"\xff\xff\xff\xff\xff\xff\x02\x1a\xaa\xaa\xaa\xaa\x08\x06\
        \x00\x01\x08\x00\x06\x04\x00\x01\x02\x1a\xaa\xaa\xaa\xaa\x0a\x00\x00\x01\x00\x00\x00\x00\x00\x00\x0a\x01\x00\x01",
        bytes,
    );
}

// From port 443 to port 50,000 and more, by the port's low byte, the flags and the checksum's low byte.
fn from_443(port: u8, flags: u8, sum: u8, bytes: &mut [u8; MOST])
    ensures { bytes.new ≡ set (set (set (laid (tcp 0x01bbc35000000000000000005000400096000000)) 37 port) 47 flags) 51 sum }
{
    lay(
        b"\x02\x1b\xbb\xbb\xbb\xbb\x02\x1a\xaa\xaa\xaa\xaa\x08\x00\
        \x45\x00\x00\x28\x00\x02\x40\x00\x40\x06\x26\xcb\x0a\x00\x00\x02\x0a\x01\x00\x01\
        \x01\xbb\xc3\x50\x00\x00\x00\x00\x00\x00\x00\x00\x50\x00\x40\x00\x96\x00\x00\x00",
        bytes,
    );
    bytes[37] = port;
    bytes[47] = flags;
    bytes[51] = sum;
}

fn first_13(bytes: &mut [u8; MOST])
    ensures { bytes.new ≡ laid first13 }
{
    lay(
        b"\x02\x1b\xbb\xbb\xbb\xbb\x02\x1a\xaa\xaa\xaa\xaa\x08",
        bytes,
    );
}

fn tagged_17(bytes: &mut [u8; MOST])
    ensures { bytes.new ≡ laid tagged17 }
{
    lay(
        b"\x02\x1b\xbb\xbb\xbb\xbb\x02\x1a\xaa\xaa\xaa\xaa\x81\x00\x00\x01\x08",
        bytes,
    );
}

fn length(f: Frame) -> usize
    ensures { result ≡ length (frame_bytes f) }
{
    match f {
        Frame::A | Frame::Type81 | Frame::Port68 | Frame::Port1024 => 72,
        Frame::Padded => 76,
        Frame::Cut => 71,
        Frame::Ether0806 | Frame::Ack1 | Frame::SynAck1 | Frame::Syn1 | Frame::Syn2 | Frame::Syn3 =>
            60,
        Frame::First13 => 13,
        Frame::Tagged17 => 17,
        Frame::Longest => 1518,
        Frame::TooLong => 1519,
    }
}

fn put(f: Frame, bytes: &mut [u8; MOST])
    ensures { bytes.new ≡ laid (frame_bytes f) }
{
    match f {
        Frame::A | Frame::Padded | Frame::Longest | Frame::TooLong => a(bytes),
        Frame::Type81 => {
            a(bytes);
            bytes[56] = 0x81;
        }
        Frame::Cut => {
            a(bytes);
            bytes[71] = 0;
        }
        Frame::Ether0806 => ether_0806(bytes),
        Frame::Ack1 => from_443(0x51, 0x10, 0xc4, bytes),
        Frame::SynAck1 => from_443(0x51, 0x12, 0xc2, bytes),
        Frame::Syn1 => from_443(0x51, 0x02, 0xd2, bytes),
        Frame::Syn2 => from_443(0x52, 0x02, 0xd1, bytes),
        Frame::Syn3 => from_443(0x53, 0x02, 0xd0, bytes),
        Frame::Port68 => to_port(0, 68, bytes),
        Frame::Port1024 => to_port(4, 0, bytes),
        Frame::First13 => first_13(bytes),
        Frame::Tagged17 => tagged_17(bytes),
    }
}

// A frame's bytes, with zeros after them, and how many they are, which is within the buffer: of a fixed size, since nothing here may fail for memory.
#[tactic(auto, using(crate::proofs::Laws::within))]
pub fn frame(f: Frame, bytes: &mut [u8; MOST]) -> usize
    ensures count { result ≡ length (frame_bytes f) }
    ensures bytes { bytes.new ≡ laid (frame_bytes f) }
    ensures inside { result ≤ length bytes.new }
{
    put(f, bytes);
    length(f)
}
