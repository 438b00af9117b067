// The words of one place, read and made.
ghost use Rattle.std.specs.Prelude.{◌≡◌, ◌/◌, ◌^◌};
ghost use Rattle.places.specs.Places.{
  place_of,
  place_words,
  no_quad,
  ipv4_quad,
  ipv6_quad,
  source_of,
  destination_of,
  same_quad,
  holds,
  phase_of,
  phase_word,
  of_socket,
  held_as,
};
ghost use Rattle.places.specs.Ageing.{with_age};

use crate::*;
use addresses::{Address, same_address};
use flags::Phase;

// 0 where the place is free, else the number of its phase. A number and no Option: the definition place_of has the state so.
pub fn state(p: &PlaceWords) -> u64
    ensures { result ≡ (place_of p.now).state }
{
    p[HELD] % KIND_BIT
}

pub fn age(p: &PlaceWords) -> u64
    ensures { result ≡ (place_of p.now).age }
{
    p[HELD] / AGE_BIT
}

pub fn high32(w: u64) -> u32
    ensures { result ≡ w / 2 ^ 32 }
{
    (w / HALF) as u32
}

pub fn quad(p: &PlaceWords) -> Quad
    ensures { result ≡ (place_of p.now).quad }
{
    Quad {
        second: p[HELD] / SOCKET_BIT % 2 == 1,
        ipv6: p[HELD] / KIND_BIT % 2 == 1,
        source: Wide {
            high: p[SOURCE_HIGH],
            low: p[SOURCE],
        },
        destination: Wide {
            high: p[DESTINATION_HIGH],
            low: p[DESTINATION],
        },
        ports: high32(p[BOTH_PORTS]),
    }
}

// No conversation, of a socket. This and the next two are three functions and none generic: the definitions no_quad, ipv4_quad and ipv6_quad name them.
pub fn no_quad(second: bool) -> Quad
    ensures { result ≡ no_quad second }
{
    Quad {
        second,
        ipv6: false,
        source: Wide { high: 0, low: 0 },
        destination: Wide { high: 0, low: 0 },
        ports: 0,
    }
}

// One for each kind of IP, as the definitions ipv4_quad and ipv6_quad are.
pub fn ipv4_quad(second: bool, source: u32, destination: u32, ports: u32) -> Quad
    ensures { result ≡ ipv4_quad second source destination ports }
{
    Quad {
        second,
        ipv6: false,
        source: source.into(),
        destination: destination.into(),
        ports,
    }
}

pub fn ipv6_quad(second: bool, source: Wide, destination: Wide, ports: u32) -> Quad
    ensures { result ≡ ipv6_quad second source destination ports }
{
    Quad {
        second,
        ipv6: true,
        source,
        destination,
        ports,
    }
}

// The addresses of a conversation, each with its kind.
pub fn source(q: Quad) -> Address
    ensures { result ≡ source_of q }
{
    Address {
        ipv6: q.ipv6,
        bits: q.source,
    }
}

pub fn destination(q: Quad) -> Address
    ensures { result ≡ destination_of q }
{
    Address {
        ipv6: q.ipv6,
        bits: q.destination,
    }
}

// The same conversation, addresses by `same_address`: the ports differ most often, so they are compared first.
#[tactic(auto, unfolding(crate::specs::Places::same_quad))]
pub fn same_quad(a: Quad, b: Quad) -> bool
    ensures { result ≡ same_quad a b }
{
    a.ports == b.ports
        && same_address(source(a), source(b))
        && same_address(destination(a), destination(b))
        && a.second == b.second
}

// Every number but 1 and 2 is Closing, as the definition phase_of has it: so it is no TryFrom.
pub fn phase_of(state: u64) -> Phase
    ensures { result ≡ phase_of state }
{
    match state {
        1 => Phase::Opening,
        2 => Phase::Running,
        _ => Phase::Closing,
    }
}

// A function and no From: a place is made by the definition phase_word.
fn phase_word(f: Phase) -> u64
    ensures { result ≡ phase_word f }
{
    match f {
        Phase::Opening => 1,
        Phase::Running => 2,
        Phase::Closing => 3,
    }
}

// The words of a conversation of this age.
pub fn place_words(q: Quad, f: Phase, age: u32) -> PlaceWords
    ensures { result ≡ place_words (with_age (held_as q f) age) }
{
    let side = KIND_BIT * u64::from(q.ipv6) + SOCKET_BIT * u64::from(q.second);
    [
        phase_word(f) + side + AGE_BIT * u64::from(age),
        HALF * u64::from(q.ports),
        q.source.high,
        q.source.low,
        q.destination.high,
        q.destination.low,
    ]
}

// Does the place hold a conversation of the socket? No `&&`: without a branch several places are done at a time.
#[tactic(auto, unfolding(crate::specs::Places::of_socket))]
pub(crate) fn is_of(second: bool, p: &PlaceWords) -> bool
    ensures { result ≡ of_socket second (place_of p.now) }
{
    let w = p[HELD];
    (w % KIND_BIT != 0) & ((w / SOCKET_BIT % 2 == 1) == second)
}

#[tactic(auto, unfolding(crate::specs::Places::holds))]
pub fn is_held_by(q: Quad, p: &PlaceWords) -> bool
    ensures { result ≡ holds q (place_of p.now) }
{
    p[HELD] % KIND_BIT != 0 && same_quad(q, quad(p))
}
