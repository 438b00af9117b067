// IP: is a packet of either kind present in the rest of a frame; IPv4's header.
ghost use Rattle.std.specs.Prelude.{◌≡◌, ◌+◌, ◌≤◌, length};
ghost use Rattle.packets.specs.Ip.{ipv4_bytes, header_length, total_length, ipv4_here, packet_at, ip_of};

use crate::ipv6_layer::*;
use crate::*;
use numbers::{ones_sum, read16, read32};

// From the header's start. Byte 0 has the version in its high half and the header words in its low half.
const TOTAL_AT: usize = 2;

const PROTOCOL_AT: usize = 9;

const SOURCE_AT: usize = 12;

const DESTINATION_AT: usize = 16;

// What a header has at least, in bytes and in words.
const IPV4_BYTES: usize = 20;

const LEAST_WORDS: usize = 5;

// The ether type and the version that say IPv4, and the sum of a header that is whole.
const IPV4_TYPE: u16 = 0x0800;

const VERSION: usize = 4;

const WHOLE_SUM: u16 = 0xFFFF;

// The frame and where its rest starts, here and below, and not the rest alone: every offset that is answered counts from the frame's start.
// Not one function with `ipv6_here`: each header has tests of its own, which differ in more than their numbers.
#[tactic(auto, unfolding(crate::specs::Ip::ipv4_here, crate::specs::Ip::ipv4_tests))]
fn ipv4_here(s: &[u8], ether: u16, at: usize) -> bool
    requires { at ≤ length s.now }
    ensures { result ≡ ipv4_here s.now ether at }
{
    let rest = s.len() - at;
    if ether != IPV4_TYPE || rest < IPV4_BYTES {
        return false;
    }
    let first = usize::from(s[at]);
    let words = first % 16;
    let total = usize::from(read16(s, at + TOTAL_AT));
    first / 16 == VERSION
        && LEAST_WORDS <= words
        && 4 * words <= total
        && total <= rest
        && ones_sum(s, at, 2 * words) == WHOLE_SUM
}

#[tactic(auto, unfolding(crate::specs::Ip::packet_at))]
fn packet_at(s: &[u8], at: usize) -> Packet
    requires header { at + ipv4_bytes ≤ length s.now }
    requires total { header_length s.now at ≤ total_length s.now at }
    ensures { result ≡ packet_at s.now at }
{
    let hlen = 4 * (usize::from(s[at]) % 16);
    let total = usize::from(read16(s, at + TOTAL_AT));
    Packet {
        source: read32(s, at + SOURCE_AT),
        destination: read32(s, at + DESTINATION_AT),
        protocol: s[at + PROTOCOL_AT],
        header: at,
        hlen,
        payload: at + hlen,
        plen: total - hlen,
    }
}

#[tactic(auto, using(crate::proofs::Laws::ipv4_room, crate::proofs::Laws::ipv6_fits), unfolding(crate::specs::Ip::ip_of))]
pub fn read_ip(s: &[u8], ether: u16, at: usize) -> Ip
    requires { at ≤ length s.now }
    ensures { result ≡ ip_of s.now ether at }
{
    if ipv4_here(s, ether, at) {
        return Ip::V4(packet_at(s, at));
    }
    if ipv6_here(s, ether, at) {
        return Ip::V6(packet6_at(s, at));
    }
    Ip::Absent
}
