// IPv6: is it present in the rest of a frame, what its header says, and where its extension headers lead.
ghost use Rattle.std.specs.Prelude.{◌≡◌, ◌+◌, ◌≤◌, length};
ghost use Rattle.packets.specs.Ipv6.{ipv6_bytes, payload_length, ipv6_here, is_extension, chain_of, packet6_at};

use crate::*;
use addresses::read128;
use numbers::read16;

// From the header's start. Byte 0 has the version in its high half.
const PAYLOAD_LENGTH_AT: usize = 4;

const NEXT_AT: usize = 6;

const SOURCE_AT: usize = 8;

const DESTINATION_AT: usize = 24;

const IPV6_BYTES: usize = 40;

// The ether type and the version that say IPv6.
const IPV6_TYPE: u16 = 0x86DD;

const VERSION: u8 = 6;

// The numbers of the headers that are followed: hop-by-hop options, routing, destination options; and of the one that fails the chain.
const HOP_BY_HOP: u8 = 0;

const ROUTING: u8 = 43;

const DESTINATION_OPTIONS: u8 = 60;

const FRAGMENT: u8 = 44;

// An extension header has the next number at 0 and its length at 1, in units of eight bytes and without the first.
const LENGTH_AT: usize = 1;

const UNIT: usize = 8;

const MOST_FOLLOWED: usize = 8;

#[tactic(auto, unfolding(crate::specs::Ipv6::ipv6_here, crate::specs::Ipv6::ipv6_tests))]
pub(crate) fn ipv6_here(s: &[u8], ether: u16, at: usize) -> bool
    requires { at ≤ length s.now }
    ensures { result ≡ ipv6_here s.now ether at }
{
    let rest = s.len() - at;
    ether == IPV6_TYPE
        && IPV6_BYTES <= rest
        && s[at] / 16 == VERSION
        && usize::from(read16(s, at + PAYLOAD_LENGTH_AT)) <= rest - IPV6_BYTES
}

#[tactic(auto, unfolding(crate::specs::Ipv6::is_extension))]
fn is_extension(n: u8) -> bool
    ensures { result ≡ is_extension n }
{
    matches!(n, HOP_BY_HOP | ROUTING | DESTINATION_OPTIONS)
}

// The chain from a number on, whose header is the first of len bytes at `at`. Headers left to follow fall.
#[tactic(auto, unfolding(crate::specs::Ipv6::chain_of))]
fn follow_chain(s: &[u8], at: usize, len: usize, number: u8, left: usize) -> Option<Upper>
    requires { at + len ≤ length s.now }
    ensures { result ≡ chain_of left s.now at len number }
{
    if number == FRAGMENT {
        return None;
    }
    if !is_extension(number) {
        return Some(Upper {
            number,
            payload: at,
            plen: len,
        });
    }
    if left == 0 || len < UNIT {
        return None;
    }
    let own = UNIT + UNIT * usize::from(s[at + LENGTH_AT]);
    if len < own {
        return None;
    }
    follow_chain(s, at + own, len - own, s[at], left - 1)
}

#[tactic(auto, unfolding(crate::specs::Ipv6::packet6_at))]
pub(crate) fn packet6_at(s: &[u8], at: usize) -> Packet6
    requires { at + ipv6_bytes + payload_length s.now at ≤ length s.now }
    ensures { result ≡ packet6_at s.now at }
{
    let len = usize::from(read16(s, at + PAYLOAD_LENGTH_AT));
    Packet6 {
        source: read128(s, at + SOURCE_AT),
        destination: read128(s, at + DESTINATION_AT),
        header: at,
        chain: follow_chain(s, at + IPV6_BYTES, len, s[at + NEXT_AT], MOST_FOLLOWED),
    }
}
