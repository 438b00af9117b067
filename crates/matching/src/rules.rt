// Does a layer of a rule match what a frame shows of it, and does the rule?
ghost use Rattle.std.specs.Prelude.{◌≡◌, Some};
ghost use Rattle.numbers.specs.Lists.{every, leading};
ghost use Rattle.payloads.specs.Someip.{messages_of};
ghost use Rattle.payloads.specs.Inside.{BundleInside, SomeipInside};
ghost use Rattle.layers.specs.Seen.{seen_in};
ghost use Rattle.matching.specs.Matching.{
  tag_tests,
  link_matches,
  ipv4_tests,
  ipv6_tests,
  ip_matches,
  ports_agree,
  transport_matches,
  message_agrees,
  messages_agree,
  someip_matches,
  layer_tests,
};
ghost use Rattle.table.specs.Words.{ipv4_in, ipv6_in, someip_in, rule_in};

use crate::agrees::*;
use layers::Seen;
use packets::*;
use payloads::someip_layer::message_at;
use payloads::*;
use table::settings::*;
use table::words::RuleWords;
use table::{words, *};

// VLAN settings never agree with an untagged frame.
pub(crate) fn tag_agrees(r: LinkSettings, tag: Option<Tag>) -> bool
    ensures { result ≡ every (tag_tests r tag) }
{
    match tag {
        None => r.vlan.is_unset() && r.priority.is_unset(),
        Some(t) => agrees(r.vlan, t.vlan) && agrees(r.priority, t.priority),
    }
}

#[tactic(auto, unfolding(crate::specs::Matching::link_matches))]
pub(crate) fn link_matches(r: LinkSettings, second: bool, x: Link) -> bool
    ensures { result ≡ link_matches r second x }
{
    agrees(r.destination, x.destination)
        && agrees(r.source, x.source)
        && agrees(r.ether, x.ether)
        && agrees(r.socket, socket_number(second))
        && tag_agrees(r, x.tag)
}

// Not one function with `ipv6_agrees`: IPv4 names its protocol, of IPv6 it is the number after the chain, if that ends.
pub(crate) fn ipv4_agrees(r: Ipv4Settings, p: Packet) -> bool
    ensures { result ≡ every (ipv4_tests r p) }
{
    agrees_prefix(r.source, p.source)
        && agrees_prefix(r.destination, p.destination)
        && agrees(r.protocol, p.protocol)
}

pub(crate) fn ipv6_agrees(r: Ipv6Settings, p: Packet6) -> bool
    ensures { result ≡ every (ipv6_tests r p) }
{
    agrees_prefix(r.source, p.source)
        && agrees_prefix(r.destination, p.destination)
        && agrees_number(r.protocol, p.chain)
}

// Absent: no setting. Present: every setting agrees, an unset one always and one of the other kind never.
pub(crate) fn ip_matches(r: &RuleWords, x: Ip) -> bool
    ensures { result ≡ ip_matches (ipv4_in r.now) (ipv6_in r.now) x }
{
    match x {
        Ip::Absent => words::no_ipv4(r) & words::no_ipv6(r),
        Ip::V4(p) => {
            if !words::no_ipv6(r) {
                return false;
            }
            ipv4_agrees(words::ipv4(r), p)
        }
        Ip::V6(p) => {
            if !words::no_ipv4(r) {
                return false;
            }
            ipv6_agrees(words::ipv6(r), p)
        }
    }
}

pub(crate) fn ports_agree(r: TransportSettings, k: Kind, from: u16, to: u16) -> bool
    ensures { result ≡ ports_agree r k from to }
{
    agrees_kind(r.kind, k) && agrees_range(r.source, from) && agrees_range(r.destination, to)
}

#[tactic(auto, using(crate::proofs::Agreeing::transport_absent, crate::proofs::Agreeing::transport_tcp, crate::proofs::Agreeing::transport_udp))]
pub(crate) fn transport_matches(r: TransportSettings, x: Transport) -> bool
    ensures { result ≡ transport_matches r x }
{
    match x {
        Transport::Absent => r.kind.is_unset() && r.source.is_unset() && r.destination.is_unset(),
        Transport::Tcp(t) => ports_agree(r, Kind::Tcp, t.source, t.destination),
        Transport::Udp(u) => ports_agree(r, Kind::Udp, u.source, u.destination),
    }
}

fn message_agrees(r: SomeipSettings, m: Message) -> bool
    ensures { result ≡ message_agrees r m }
{
    agrees(r.service, m.service)
        && agrees(r.method, m.method)
        && agrees(r.version, m.version)
        && agrees(r.kind, m.kind)
        && agrees(r.code, m.code)
}

// Every message, one behind the other, up to the first that does not agree. A while and not a for: a message tells where the next one stands.
fn messages_agree(r: SomeipSettings, s: &[u8], b: Bundle) -> bool
    requires { BundleInside s.now b }
    ensures { result ≡ messages_agree r (messages_of s.now (Some b)) }
{
    let mut at = b.payload;
    let mut len = b.plen;
    while len > 0 {
        let m = message_at(s, at);
        let size = m.size;
        if !message_agrees(r, m) {
            return false;
        }
        at += size;
        len -= size;
    }
    true
}

// No setting: every frame. Else the layer is present and each message agrees.
pub(crate) fn someip_matches(r: &RuleWords, s: &[u8], x: Option<Bundle>) -> bool
    requires { SomeipInside s.now x }
    ensures { result ≡ someip_matches (someip_in r.now) s.now x }
{
    if words::no_someip(r) {
        return true;
    }
    match x {
        None => false,
        Some(b) => messages_agree(words::someip(r), s, b),
    }
}

// The layers that match, from link upward to the first that does not.
#[tactic(auto, unfolding(crate::specs::Matching::layer_tests))]
pub fn layers_matched(r: &RuleWords, x: &Seen) -> usize
    ensures { result ≡ leading (layer_tests (rule_in r.now) (seen_in x.now)) }
{
    if !link_matches(words::link(r), x.second, x.layers.link) {
        return 0;
    }
    if !ip_matches(r, x.layers.ip) {
        return 1;
    }
    if !transport_matches(words::transport(r), x.layers.transport) {
        return 2;
    }
    if !someip_matches(r, x.frame, x.layers.someip) {
        return 3;
    }
    4
}
