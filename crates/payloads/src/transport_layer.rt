// The transport: is TCP or UDP present in what a packet of either kind carries, and what its header says.
ghost use Rattle.std.specs.Prelude.{◌≡◌, ◌+◌, ◌≤◌, length};
ghost use Rattle.packets.specs.Ip.{ipv4_bytes};
ghost use Rattle.payloads.specs.Transport.{tcp_bytes, udp_bytes, unfragmented, tcp_here, udp_here, segment_at, datagram_at, transport_at, transport_after, transport_of};
ghost use Rattle.packets.specs.Inside.{PacketInside, ChainInside, IpInside};

use crate::*;
use numbers::read16;
use packets::{Ip, Packet, Upper};

// In the IPv4 header: flags and fragment offset, and the weight of more-fragments, below which the offset lies.
const FRAGMENT_AT: usize = 6;

const MORE_FRAGMENTS: u16 = 8192;

// From the header's start, where the source port is; the data offset and the flags are TCP's, the length is UDP's.
const DESTINATION_AT: usize = 2;

const OFFSET_AT: usize = 12;

const FLAGS_AT: usize = 13;

const LENGTH_AT: usize = 4;

// The weight of each flag.
const FIN: u8 = 1;

const SYN: u8 = 2;

const RST: u8 = 4;

const ACK: u8 = 16;

// The protocol numbers, and what each header has at least: TCP's in bytes and in words.
const TCP_PROTOCOL: u8 = 6;

const TCP_BYTES: usize = 20;

const LEAST_OFFSET: usize = 5;

const UDP_PROTOCOL: u8 = 17;

const UDP_BYTES: usize = 8;

#[tactic(auto, unfolding(crate::specs::Transport::unfragmented))]
fn is_whole(s: &[u8], at: usize) -> bool
    requires { at + ipv4_bytes ≤ length s.now }
    ensures { result ≡ unfragmented s.now at }
{
    let f = read16(s, at + FRAGMENT_AT);
    f / MORE_FRAGMENTS % 2 == 0 && f % MORE_FRAGMENTS == 0
}

// The frame with a place and a length, here and below, and not the part alone: every offset that is answered counts from the frame's start.
#[tactic(auto, unfolding(crate::specs::Transport::tcp_here, crate::specs::Transport::tcp_tests))]
fn tcp_here(s: &[u8], protocol: u8, at: usize, len: usize) -> bool
    requires { at + len ≤ length s.now }
    ensures { result ≡ tcp_here s.now protocol at len }
{
    if protocol != TCP_PROTOCOL || len < TCP_BYTES {
        return false;
    }
    let words = usize::from(s[at + OFFSET_AT]) / 16;
    LEAST_OFFSET <= words && 4 * words <= len
}

#[tactic(auto, unfolding(crate::specs::Transport::udp_here, crate::specs::Transport::udp_tests))]
fn udp_here(s: &[u8], protocol: u8, at: usize, len: usize) -> bool
    requires { at + len ≤ length s.now }
    ensures { result ≡ udp_here s.now protocol at len }
{
    protocol == UDP_PROTOCOL && UDP_BYTES <= len && usize::from(read16(s, at + LENGTH_AT)) == len
}

#[tactic(auto, unfolding(crate::specs::Transport::segment_at))]
fn segment_at(s: &[u8], at: usize) -> Segment
    requires { at + tcp_bytes ≤ length s.now }
    ensures { result ≡ segment_at s.now at }
{
    let flags = s[at + FLAGS_AT];
    Segment {
        source: read16(s, at),
        destination: read16(s, at + DESTINATION_AT),
        fin: flags / FIN % 2 == 1,
        syn: flags / SYN % 2 == 1,
        rst: flags / RST % 2 == 1,
        ack: flags / ACK % 2 == 1,
        header: at,
        hlen: 4 * (usize::from(s[at + OFFSET_AT]) / 16),
    }
}

#[tactic(auto, unfolding(crate::specs::Transport::datagram_at))]
fn datagram_at(s: &[u8], at: usize, len: usize) -> Datagram
    requires header { udp_bytes ≤ len }
    requires inside { at + len ≤ length s.now }
    ensures { result ≡ datagram_at s.now at len }
{
    Datagram {
        source: read16(s, at),
        destination: read16(s, at + DESTINATION_AT),
        header: at,
        payload: at + UDP_BYTES,
        plen: len - UDP_BYTES,
    }
}

#[tactic(auto, using(crate::proofs::Laws::tcp_fits, crate::proofs::Laws::udp_fits), unfolding(crate::specs::Transport::transport_at))]
fn transport_at(s: &[u8], protocol: u8, at: usize, len: usize) -> Transport
    requires { at + len ≤ length s.now }
    ensures { result ≡ transport_at s.now protocol at len }
{
    if tcp_here(s, protocol, at, len) {
        return Transport::Tcp(segment_at(s, at));
    }
    if udp_here(s, protocol, at, len) {
        return Transport::Udp(datagram_at(s, at, len));
    }
    Transport::Absent
}

// What a packet carries, unless it is a fragment.
#[tactic(auto, unfolding(crate::specs::Transport::transport_of))]
fn transport_in(s: &[u8], p: Packet) -> Transport
    requires { PacketInside s.now p }
    ensures { result ≡ transport_of s.now (Ip.V4 p) }
{
    if is_whole(s, p.header) {
        transport_at(s, p.protocol, p.payload, p.plen)
    } else {
        Transport::Absent
    }
}

// What follows a chain of extension headers, unless the chain fails.
fn transport_after(s: &[u8], c: Option<Upper>) -> Transport
    requires { ChainInside s.now c }
    ensures { result ≡ transport_after s.now c }
{
    match c {
        None => Transport::Absent,
        Some(upper) => transport_at(s, upper.number, upper.payload, upper.plen),
    }
}

#[tactic(auto, unfolding(crate::specs::Transport::transport_of))]
pub fn read_transport(s: &[u8], i: Ip) -> Transport
    requires { IpInside s.now i }
    ensures { result ≡ transport_of s.now i }
{
    match i {
        Ip::Absent => Transport::Absent,
        Ip::V4(p) => transport_in(s, p),
        Ip::V6(p) => transport_after(s, p.chain),
    }
}
