// The link layer: the MACs, the tag, the ether type.
ghost use Rattle.std.specs.Prelude.{◌≡◌, true, ◌≤◌, length};
ghost use Rattle.packets.specs.Link.{link_bytes, tagged_bytes, tagged, tag_of, link_of};

use crate::*;
use numbers::{read16, read48};

// Where each stands; behind a tag the ether type stands later.
const DESTINATION_AT: usize = 0;

const SOURCE_AT: usize = 6;

const ETHER_AT: usize = 12;

const TAG_AT: usize = 14;

const TAGGED_ETHER_AT: usize = 16;

// The bytes of the header, without a tag and with one.
const LINK_BYTES: usize = 14;

pub const TAGGED_BYTES: usize = 18;

// The ether type that says a tag follows.
const TAG_TYPE: u16 = 0x8100;

// What divides off a tag's priority, its top 3 bits, and its VLAN id, its low 12.
const TOP_3: u16 = 8192;

const LOW_12: u16 = 4096;

#[tactic(auto, unfolding(crate::specs::Link::tagged))]
pub fn is_tagged(s: &[u8]) -> bool
    requires { link_bytes ≤ length s.now }
    ensures { result ≡ tagged s.now }
{
    read16(s, ETHER_AT) == TAG_TYPE
}

#[tactic(auto, unfolding(crate::specs::Link::tag_of))]
fn read_tag(s: &[u8]) -> Tag
    requires { tagged_bytes ≤ length s.now }
    ensures { result ≡ tag_of s.now }
{
    let x = read16(s, TAG_AT);
    Tag {
        priority: (x / TOP_3) as u8,
        vlan: x % LOW_12,
    }
}

#[tactic(auto, unfolding(crate::specs::Link::link_of))]
pub fn read_link(s: &[u8]) -> Link
    requires header { link_bytes ≤ length s.now }
    requires tag { tagged s.now ≡ true → tagged_bytes ≤ length s.now }
    ensures { result ≡ link_of s.now }
{
    let destination = read48(s, DESTINATION_AT);
    let source = read48(s, SOURCE_AT);
    if is_tagged(s) {
        Link {
            destination,
            source,
            tag: Some(read_tag(s)),
            ether: read16(s, TAGGED_ETHER_AT),
            hlen: TAGGED_BYTES,
        }
    } else {
        Link {
            destination,
            source,
            tag: None,
            ether: read16(s, ETHER_AT),
            hlen: LINK_BYTES,
        }
    }
}
