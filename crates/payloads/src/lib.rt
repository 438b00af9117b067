// The two upper layers of a frame, transport and SOME/IP. `layers` reads a whole frame by them.
#![tactic(auto)]

pub mod someip_layer;
pub mod transport_layer;

// Header and payload count from the frame's start; hlen and plen are their lengths.
#[derive(Clone, Copy)]
pub struct Segment {
    pub source: u16,
    pub destination: u16,
    pub fin: bool,
    pub syn: bool,
    pub rst: bool,
    pub ack: bool,
    pub header: usize,
    pub hlen: usize,
}

#[derive(Clone, Copy)]
pub struct Datagram {
    pub source: u16,
    pub destination: u16,
    pub header: usize,
    pub payload: usize,
    pub plen: usize,
}

#[derive(Clone, Copy)]
pub enum Transport {
    Absent,
    Tcp(Segment),
    Udp(Datagram),
}

// One SOME/IP message: its header counts from the frame's start, size are all its bytes.
#[derive(Clone, Copy)]
pub struct Message {
    pub service: u16,
    pub method: u16,
    pub version: u8,
    pub kind: u8,
    pub code: u8,
    pub header: usize,
    pub size: usize,
}

// One or more whole messages, one behind the other: the payload of a datagram that cuts into them.
#[derive(Clone, Copy)]
pub struct Bundle {
    pub payload: usize,
    pub plen: usize,
}
