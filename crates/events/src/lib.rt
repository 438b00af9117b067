// The event's bytes, row by row of 001 section 7.6.1.
#![tactic(auto)]

ghost use Rattle.std.specs.Prelude.{◌≡◌, Bool, ◌++◌, ◌≤◌, length, drop};
ghost use Rattle.numbers.specs.Bytes.{byte};
ghost use Rattle.numbers.specs.Lists.{Wrote};
ghost use Rattle.layers.specs.Layers.{least};
ghost use Rattle.layers.specs.Seen.{seen};
ghost use Rattle.table.specs.Words.{rule_in};
ghost use Rattle.events.specs.Events.{array, number_of, event_bytes, longest_event, mismatch_of};
ghost use Rattle.events.specs.Arrays.{
  length_of,
  heading,
  nowhere,
  ipv4_span,
  ipv6_span,
  tcp_span,
  udp_span,
  someip_span,
  span_of,
};

use layers::{Layers, Seen};
use packets::Ip;
use payloads::{Bundle, Transport};
use table::settings::is_tcp;
use table::words;
use table::words::RuleWords;

// The event space that a judged frame asks, in bytes.
pub const ROOM: usize = 256;

// The events of 001 that a verdict can give.
#[derive(Clone, Copy)]
pub enum Event {
    Ratelimit,
    StateTransition,
    MaxConnections,
    LinkMismatch,
    Ipv4Mismatch,
    Ipv6Mismatch,
    TcpMismatch,
    UdpMismatch,
    SomeipMismatch,
}

impl Event {
    pub const RATELIMIT: u16 = 64;

    pub const STATE_TRANSITION: u16 = 63;

    pub const MAX_CONNECTIONS: u16 = 61;

    pub const LINK_MISMATCH: u16 = 77;

    pub const IPV4_MISMATCH: u16 = 51;

    pub const IPV6_MISMATCH: u16 = 52;

    pub const TCP_MISMATCH: u16 = 54;

    pub const UDP_MISMATCH: u16 = 55;

    pub const SOMEIP_MISMATCH: u16 = 56;

    pub(crate) fn number(self) -> u16
        ensures { result ≡ number_of self }
    {
        match self {
            Event::Ratelimit => Event::RATELIMIT,
            Event::StateTransition => Event::STATE_TRANSITION,
            Event::MaxConnections => Event::MAX_CONNECTIONS,
            Event::LinkMismatch => Event::LINK_MISMATCH,
            Event::Ipv4Mismatch => Event::IPV4_MISMATCH,
            Event::Ipv6Mismatch => Event::IPV6_MISMATCH,
            Event::TcpMismatch => Event::TCP_MISMATCH,
            Event::UdpMismatch => Event::UDP_MISMATCH,
            Event::SomeipMismatch => Event::SOMEIP_MISMATCH,
        }
    }

    // Two bytes of number, two of rule id, and the array.
    pub(crate) fn length(self) -> usize
        ensures { result ≡ length_of self }
    {
        match self {
            Event::Ratelimit => 10,
            Event::StateTransition => 4,
            Event::MaxConnections => 28,
            Event::LinkMismatch => 34,
            Event::Ipv4Mismatch => 28,
            Event::Ipv6Mismatch => 44,
            Event::TcpMismatch => 28,
            Event::UdpMismatch => 12,
            Event::SomeipMismatch => 20,
        }
    }
}

// Where a header lies in the frame.
#[derive(Clone, Copy)]
pub struct Span {
    pub at: usize,
    pub len: usize,
}

impl Span {
    fn nowhere() -> Span
        ensures { result ≡ nowhere }
    {
        Span { at: 0, len: 0 }
    }
}

// One function for each header, and not one over all: each is found in a case of its own and ends in its own way.
fn ipv4_span(ip: Ip) -> Span
    ensures { result ≡ ipv4_span ip }
{
    match ip {
        Ip::V4(p) => Span {
            at: p.header,
            len: p.hlen,
        },
        Ip::Absent | Ip::V6(_) => Span::nowhere(),
    }
}

// The header alone, and none of the extension headers behind it.
fn ipv6_span(ip: Ip) -> Span
    ensures { result ≡ ipv6_span ip }
{
    match ip {
        Ip::V6(p) => Span {
            at: p.header,
            len: 40,
        },
        Ip::Absent | Ip::V4(_) => Span::nowhere(),
    }
}

fn tcp_span(t: Transport) -> Span
    ensures { result ≡ tcp_span t }
{
    match t {
        Transport::Tcp(g) => Span {
            at: g.header,
            len: g.hlen,
        },
        Transport::Absent | Transport::Udp(_) => Span::nowhere(),
    }
}

fn udp_span(t: Transport) -> Span
    ensures { result ≡ udp_span t }
{
    match t {
        Transport::Udp(u) => Span {
            at: u.header,
            len: 8,
        },
        Transport::Absent | Transport::Tcp(_) => Span::nowhere(),
    }
}

// The first message stands first in its bundle.
fn someip_span(x: Option<Bundle>) -> Span
    ensures { result ≡ someip_span x }
{
    match x {
        None => Span::nowhere(),
        Some(b) => Span {
            at: b.payload,
            len: 16,
        },
    }
}

// The header that the event's array shows. MAC_Address is the source MAC.
fn span_of(e: Event, l: Layers) -> Span
    ensures { result ≡ span_of e l }
{
    match e {
        Event::Ratelimit => Span { at: 6, len: 6 },
        Event::StateTransition => Span::nowhere(),
        Event::MaxConnections => tcp_span(l.transport),
        Event::LinkMismatch => Span {
            at: 0,
            len: l.link.hlen,
        },
        Event::Ipv4Mismatch => ipv4_span(l.ip),
        Event::Ipv6Mismatch => ipv6_span(l.ip),
        Event::TcpMismatch => tcp_span(l.transport),
        Event::UdpMismatch => udp_span(l.transport),
        Event::SomeipMismatch => someip_span(l.someip),
    }
}

fn head(number: u16, id: u16, space: &mut [u8])
    requires { 4 ≤ length space.old }
    ensures { space.new ≡ heading number id ++ drop 4 space.old }
{
    space[..2].copy_from_slice(&number.to_be_bytes());
    space[2..4].copy_from_slice(&id.to_be_bytes());
}

// The byte at i, zero past the end.
fn byte_at(s: &[u8], i: usize) -> u8
    ensures { result ≡ byte s.now i }
{
    s.get(i).copied().unwrap_or(0)
}

// The header's first bytes, zeros to fill.
fn fill(header: &[u8], space: &mut [u8])
    ensures { space.new ≡ array (length space.old) header.now }
{
    for (i, b) in space.iter_mut().enumerate() {
        *b = byte_at(header, i);
    }
}

// That the frame has 14 bytes is a clause here and in those that call, and no fact of what is seen: whoever matches asks no more than that its layers lie inside.
// Writes the event to the start of the space, and nothing beyond it. No event shows the socket. The space is lent and the length told beside it, and no buffer
// is made: nothing here may fail for memory (definition Wrote).
pub fn write(e: Event, id: u16, x: &Seen, space: &mut [u8]) -> usize
    requires long { least ≤ length x.now.frame.now }
    requires room { longest_event ≤ length space.old }
    ensures { (second : Bool) → Wrote (event_bytes e id (seen second x.now.frame.now x.now.layers)) space.old space.new result }
{
    head(e.number(), id, space);
    let Span { at, len } = span_of(e, x.layers);
    let stop = e.length();
    fill(&x.frame[at..at + len], &mut space[4..stop]);
    stop
}

// The event of a rule whose next layer does not match.
#[tactic(auto, unfolding(crate::specs::Events::mismatch_of))]
pub fn mismatch(r: &RuleWords, layer: usize) -> Event
    ensures { result ≡ mismatch_of (rule_in r.now) layer }
{
    match layer {
        0 => Event::LinkMismatch,
        1 if words::no_ipv6(r) => Event::Ipv4Mismatch,
        1 => Event::Ipv6Mismatch,
        2 if is_tcp(words::transport(r).kind) => Event::TcpMismatch,
        2 => Event::UdpMismatch,
        _ => Event::SomeipMismatch,
    }
}
