// The places of one rule for its conversations: their words, read and made, aged, tested. They are lent and changed in place.
#![tactic(auto)]

pub mod ageing;
pub mod place;
pub mod sockets;

use addresses::Wide;
use table::{PLACES, RULES};

// The words of a place, from the lowest bit up, in bits. What has no meaning yet must be zero, or the record is bad.
// 0: state 2 (0 free, 1 Opening, 2 Running, 3 Closing), kind 1 (0 IPv4, 1 IPv6), socket 1, age in ms 60
// 1: expected number 32 (no meaning yet), both ports 32
// 2, 3: source address, its high 64 bits and its low 64; an IPv4 address stands in the lowest 32, and above it all is zero
// 4, 5: destination address, likewise
// Words and no struct: the definition place_of reads a place from them.
pub type PlaceWords = [u64; PLACE_WORDS];

// The places of one rule, and those of all rules.
pub type RulePlaces = [PlaceWords; PLACES];

pub type AllPlaces = [RulePlaces; RULES];

pub const PLACE_WORDS: usize = 6;

// Where each word stands.
pub const HELD: usize = 0;

pub const BOTH_PORTS: usize = 1;

pub const SOURCE_HIGH: usize = 2;

pub const SOURCE: usize = 3;

pub const DESTINATION_HIGH: usize = 4;

pub const DESTINATION: usize = 5;

// In word HELD the state stands below the kind, and kind, socket and age count so much.
pub const KIND_BIT: u64 = 4;

pub const SOCKET_BIT: u64 = 8;

pub const AGE_BIT: u64 = 16;

// The weight of a word's upper half.
pub const HALF: u64 = 4294967296;

// A conversation: its socket, the addresses, of one kind, and both ports, source x 65,536 + destination, as this direction shows them.
// The ports differ most often: they stand first, and `same_quad` compares them first.
#[derive(Clone, Copy, PartialEq, Eq)]
pub struct Quad {
    pub ports: u32,
    pub second: bool,
    pub ipv6: bool,
    pub source: Wide,
    pub destination: Wide,
}
