// The two lower layers of an Ethernet frame, link and IP. `layers` reads a whole frame by them.
#![tactic(auto)]

pub mod ip_layer;
mod ipv6_layer;
pub mod link_layer;

use addresses::Wide;

#[derive(Clone, Copy)]
pub struct Tag {
    pub priority: u8,
    pub vlan: u16,
}

// The header lies at 0, the rest starts at hlen. An untagged frame has no tag.
#[derive(Clone, Copy)]
pub struct Link {
    pub destination: u64,
    pub source: u64,
    pub tag: Option<Tag>,
    pub ether: u16,
    pub hlen: usize,
}

// Header and payload count from the frame's start; hlen and plen are their lengths.
#[derive(Clone, Copy)]
pub struct Packet {
    pub source: u32,
    pub destination: u32,
    pub protocol: u8,
    pub header: usize,
    pub hlen: usize,
    pub payload: usize,
    pub plen: usize,
}

// What follows the extension headers of an IPv6 packet: the number that names it, and where it lies.
#[derive(Clone, Copy)]
pub struct Upper {
    pub number: u8,
    pub payload: usize,
    pub plen: usize,
}

// Its header has 40 bytes. The chain of its extension headers leads to what follows them, or following it fails.
#[derive(Clone, Copy)]
pub struct Packet6 {
    pub source: Wide,
    pub destination: Wide,
    pub header: usize,
    pub chain: Option<Upper>,
}

#[derive(Clone, Copy)]
pub enum Ip {
    Absent,
    V4(Packet),
    V6(Packet6),
}
