// Reads the layers of an Ethernet frame: link, IP, transport, SOME/IP. No rules, no records.
#![tactic(auto)]

ghost use Rattle.std.specs.Prelude.{◌≡◌, false};
ghost use Rattle.layers.specs.Layers.{layers_of, too_short, refusal_number, shown_of};
ghost use Rattle.layers.specs.Seen.{said_seen, see_of};

pub mod seen;

pub use crate::seen::Seen;
use packets::ip_layer::read_ip;
use packets::link_layer::{TAGGED_BYTES, is_tagged, read_link};
use packets::{Ip, Link};
use payloads::someip_layer::read_someip;
use payloads::transport_layer::read_transport;
use payloads::{Bundle, Transport};

// The bytes of a frame, without its check sequence.
const LEAST: usize = 14;

const MOST: usize = 1518;

#[derive(Clone, Copy)]
pub struct Layers {
    pub link: Link,
    pub ip: Ip,
    pub transport: Transport,
    pub someip: Option<Bundle>,
}

// Why a frame is not read.
#[derive(Clone, Copy)]
pub enum FrameRefusal {
    TooShort,
    TooLong,
}

impl FrameRefusal {
    pub const TOO_SHORT: u8 = 1;

    pub const TOO_LONG: u8 = 2;

    pub fn number(self) -> u8
        ensures { result ≡ refusal_number self }
    {
        match self {
            FrameRefusal::TooShort => FrameRefusal::TOO_SHORT,
            FrameRefusal::TooLong => FrameRefusal::TOO_LONG,
        }
    }
}

#[tactic(auto, using(crate::proofs::Laws::each_inside), unfolding(crate::specs::Layers::layers_of))]
fn read_layers(s: &[u8]) -> Layers
    requires { too_short s.now ≡ false }
    ensures { result ≡ layers_of s.now }
{
    let link = read_link(s);
    let ip = read_ip(s, link.ether, link.hlen);
    let transport = read_transport(s, ip);
    let someip = read_someip(s, transport);
    Layers {
        link,
        ip,
        transport,
        someip,
    }
}

#[tactic(auto, unfolding(crate::specs::Layers::too_short))]
fn is_short(s: &[u8]) -> bool
    ensures { result ≡ too_short s.now }
{
    s.len() < LEAST || (is_tagged(s) && s.len() < TAGGED_BYTES)
}

/// What a frame shows, for any product. Takes the frame's bytes, without their check sequence, and asks nothing of them. Answers a refusal
/// or the layers, `Absent` or `None` for each that the frame lacks; it keeps nothing and changes nothing. Link and IP are types of
/// `packets`, transport and SOME/IP of `payloads`, the words of an IPv6 address of `addresses`, so a product names those too.
/// Every offset in the answer counts from the frame's start and lies, with its length, inside the frame
/// (specs/Inside here, in `packets` and in `payloads`; laws `shows_inside`, `packet_inside` and its like of proofs/Laws). Of an IPv6 packet whose extension headers cannot be followed the chain is `None`, and no transport is shown.
/// SOME/IP is shown as its bundle, whose messages `payloads::someip_layer::message_at` reads one behind the other.
/// How many hops a packet may still make, 0 where there is none:
///
///     let Ok(shown) = layers::read(frame) else { return 0; };
///     match shown.ip {
///         packets::Ip::Absent => 0,
///         packets::Ip::V4(packet) => frame[packet.header + 8],
///         packets::Ip::V6(packet) => frame[packet.header + 7],
///     }
#[tactic(auto, unfolding(crate::specs::Layers::shown_of))]
pub fn read(frame: &[u8]) -> Result<Layers, FrameRefusal>
    ensures { result ≡ shown_of frame.now }
{
    if is_short(frame) {
        return Err(FrameRefusal::TooShort);
    }
    if MOST < frame.len() {
        return Err(FrameRefusal::TooLong);
    }
    Ok(read_layers(frame))
}

/// The same of a frame that came on a socket, the second or not, with its bytes and its socket kept beside the layers:
///
///     let seen = layers::see(false, frame)?;
pub fn see<'a>(second: bool, frame: &'a [u8]) -> Result<Seen<'a>, FrameRefusal>
    ensures { said_seen result ≡ see_of second frame.now }
{
    let layers = read(frame)?;
    Ok(Seen {
        second,
        frame,
        layers,
    })
}
