// SOME/IP: does a UDP payload cut into whole messages, and what a message says.
ghost use Rattle.std.specs.Prelude.{◌≡◌, ◌+◌, ◌≤◌, ◌<◌, length};
ghost use Rattle.payloads.specs.Someip.{someip_bytes, uncounted, length_field, message_here, message_at, cut, does_cut, someip_at, someip_of};
ghost use Rattle.payloads.specs.Inside.{TransportInside};

use crate::*;
use numbers::{read16, read32};

// From the header's start, where the service id is.
const METHOD_AT: usize = 2;

const LENGTH_AT: usize = 4;

const VERSION_AT: usize = 12;

const KIND_AT: usize = 14;

const CODE_AT: usize = 15;

// The bytes of the header, the least Length, and the bytes that the Length does not count.
const SOMEIP_BYTES: usize = 16;

const LEAST_LENGTH: usize = 8;

const UNCOUNTED: usize = 8;

// The Length of the message at `at`.
fn length_at(s: &[u8], at: usize) -> usize
    requires { at + uncounted ≤ length s.now }
    ensures value { result ≡ length_field s.now at }
    ensures bound { result < 4294967296 }
{
    read32(s, at + LENGTH_AT) as usize
}

// Does a whole message stand first in these bytes?
#[tactic(auto, using(crate::proofs::OnSomeip::here_short), unfolding(crate::specs::Someip::message_here, crate::specs::Someip::message_tests))]
fn message_here(s: &[u8], at: usize, len: usize) -> bool
    requires { at + len ≤ length s.now }
    ensures { result ≡ message_here s.now at len }
{
    if len < SOMEIP_BYTES {
        return false;
    }
    let counted = length_at(s, at);
    LEAST_LENGTH <= counted && UNCOUNTED + counted <= len
}

/// The message at `at` of the frame's bytes s, where one stands. The first of a bundle is at its payload, each other `size` bytes behind the
/// one before it, and `plen` less those bytes is what is left to read: law `walked` of proofs/Cutting.
#[tactic(auto, unfolding(crate::specs::Someip::message_at))]
pub fn message_at(s: &[u8], at: usize) -> Message
    requires { at + someip_bytes ≤ length s.now }
    ensures { result ≡ message_at s.now at }
{
    Message {
        service: read16(s, at),
        method: read16(s, at + METHOD_AT),
        version: s[at + VERSION_AT],
        kind: s[at + KIND_AT],
        code: s[at + CODE_AT],
        header: at,
        size: UNCOUNTED + length_at(s, at),
    }
}

// Goes from message to message by their Length, up to the payload's end.
#[tactic(auto, using(crate::proofs::OnSomeip::passed, crate::proofs::OnSomeip::ended, crate::proofs::OnSomeip::nothing_cuts))]
fn cuts(s: &[u8], payload: usize, plen: usize) -> bool
    requires { payload + plen ≤ length s.now }
    ensures { result ≡ does_cut (cut s.now payload plen) }
{
    let mut at = payload;
    let mut len = plen;
    // A while and not a for: the step is told by the bytes.
    while len > 0 {
        if !message_here(s, at, len) {
            return false;
        }
        let size = UNCOUNTED + length_at(s, at);
        at += size;
        len -= size;
    }
    true
}

// One or more messages: no bytes are none.
#[tactic(auto, using(crate::proofs::OnSomeip::someip_is))]
fn someip_at(s: &[u8], at: usize, len: usize) -> Option<Bundle>
    requires { at + len ≤ length s.now }
    ensures { result ≡ someip_at s.now at len }
{
    if len == 0 || !cuts(s, at, len) {
        return None;
    }
    Some(Bundle {
        payload: at,
        plen: len,
    })
}

#[tactic(auto, unfolding(crate::specs::Someip::someip_of))]
pub fn read_someip(s: &[u8], t: Transport) -> Option<Bundle>
    requires { TransportInside s.now t }
    ensures { result ≡ someip_of s.now t }
{
    match t {
        Transport::Absent | Transport::Tcp(_) => None,
        Transport::Udp(u) => someip_at(s, u.payload, u.plen),
    }
}
