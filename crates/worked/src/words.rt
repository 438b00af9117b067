// What is refused, judged and set, in words.
use events::Event;
use faults::AtFault;
use firewall::Refusal;
use flags::Phase;
use paper::Frame;
use ranges::setting_number::SettingNumber;
use std::fmt::{Display, Formatter, Write};
use std::{fmt, io};
use steps::Answer;
use table::Action;
use table::words::{TableWords, id};
use verdicts::verdict::Verdict;

pub(crate) fn frame(f: Frame) -> &'static str {
    match f {
        Frame::A => "A",
        Frame::Padded => "A with four zero bytes added",
        Frame::Type81 => "A with type 0x81",
        Frame::Cut => "A less its last byte",
        Frame::Ether0806 => "0x0806",
        Frame::Ack1 => "ACK from 443 to 50001",
        Frame::SynAck1 => "SYN+ACK from 443 to 50001",
        Frame::Syn1 => "SYN from 443 to 50001",
        Frame::Syn2 => "SYN from 443 to 50002",
        Frame::Syn3 => "SYN from 443 to 50003",
        Frame::Port68 => "A with destination port 68",
        Frame::Port1024 => "A with destination port 1024",
        Frame::First13 => "13 bytes",
        Frame::Tagged17 => "17 bytes, tagged",
        Frame::Longest => "A with zeros to 1518 bytes",
        Frame::TooLong => "A with zeros to 1519 bytes",
    }
}

pub(crate) fn verdict(v: Verdict) -> &'static str {
    match v {
        Verdict::Allowed => "allowed",
        Verdict::AllowedByDefault => "allowed by default",
        Verdict::BlockedByRule => "blocked by rule",
        Verdict::OverRate => "over rate",
        Verdict::WrongFlags => "wrong flags",
        Verdict::NoConversation => "no such conversation",
        Verdict::NotInState => "not in this state",
        Verdict::NoPlaceFree => "no place for it",
        Verdict::BlockedByDefault => "blocked by default",
    }
}

// The events by the names that the papers have for them. By number: an event is known by the bytes that were written of it.
pub(crate) fn event(number: u16) -> &'static str {
    match number {
        Event::RATELIMIT => "over rate ",
        Event::STATE_TRANSITION => "TCP state transition ",
        Event::MAX_CONNECTIONS => "too many TCP connections ",
        Event::LINK_MISMATCH => "link mismatch ",
        Event::IPV4_MISMATCH => "IPv4 mismatch ",
        Event::IPV6_MISMATCH => "IPv6 mismatch ",
        Event::TCP_MISMATCH => "TCP mismatch ",
        Event::UDP_MISMATCH => "UDP mismatch ",
        Event::SOMEIP_MISMATCH => "SOME/IP mismatch ",
        _ => "",
    }
}

pub(crate) fn phase(p: Phase) -> &'static str {
    match p {
        Phase::Opening => "Opening",
        Phase::Running => "Running",
        Phase::Closing => "Closing",
    }
}

pub(crate) fn action(a: Action) -> &'static str {
    match a {
        Action::Allow => "allow",
        Action::Block => "block",
        Action::Unknown => "unknown",
    }
}

// By the layers, from the id up.
fn setting(s: SettingNumber) -> &'static str {
    match s {
        SettingNumber::Id => "id",
        SettingNumber::Action => "action",
        SettingNumber::DestinationMac => "destination MAC",
        SettingNumber::SourceMac => "source MAC",
        SettingNumber::VlanId => "VLAN id",
        SettingNumber::Priority => "priority",
        SettingNumber::EtherType => "ether type",
        SettingNumber::Socket => "socket",
        SettingNumber::Ipv4Source => "IPv4 source",
        SettingNumber::Ipv4Destination => "IPv4 destination",
        SettingNumber::Ipv4Protocol => "IPv4 protocol",
        SettingNumber::Ipv6Source => "IPv6 source",
        SettingNumber::Ipv6Destination => "IPv6 destination",
        SettingNumber::Ipv6Protocol => "IPv6 protocol",
        SettingNumber::Kind => "kind",
        SettingNumber::SourcePorts => "source ports",
        SettingNumber::DestinationPorts => "destination ports",
        SettingNumber::Service => "service",
        SettingNumber::Method => "method",
        SettingNumber::ProtocolVersion => "protocol version",
        SettingNumber::MessageType => "message type",
        SettingNumber::ReturnCode => "return code",
        SettingNumber::BucketSize => "bucket size",
        SettingNumber::Refill => "refill",
        SettingNumber::Places => "places",
        SettingNumber::IdleLimit => "idle limit",
        SettingNumber::Number0 => "number of socket 0",
        SettingNumber::Number1 => "number of socket 1",
    }
}

// The page of the settings by number.
pub(crate) fn settings(rt: &impl Print) -> io::Result<()> {
    println!(rt; "\nthe settings by number, in the order in which a fault is looked for")?;
    for s in SettingNumber::in_order() {
        println!(rt; "{:>8}  {}", s.number(), setting(s))?;
    }
    Ok(())
}

// A refusal by its number; of a bad table also which rule, by its id and its place, and which of its settings, or that no rule is at fault.
#[derive(Clone, Copy)]
pub(crate) struct RefusalWords<'a>(pub Refusal, pub &'a TableWords);

impl Display for RefusalWords<'_> {
    fn fmt<W: Write>(&self, f: &mut Formatter<W>) -> fmt::Result {
        let RefusalWords(r, t) = *self;
        write!(f, "refused {} ", r.number())?;
        match r {
            Refusal::TooShort => write!(f, "too short"),
            Refusal::TooLong => write!(f, "too long"),
            Refusal::NoSpace => write!(f, "event space too small"),
            Refusal::BadTable(AtFault::Rule { place, setting: s }) => {
                let id = t.get(place).map_or(Answer::NO_RULE, id);
                write!(f, "rule {id} at place {place}: {}", setting(s))
            }
            Refusal::BadTable(AtFault::StatesOrRuleCount) => {
                write!(f, "the states or the rule count")
            }
            Refusal::BadRecord => write!(f, "bad record"),
            Refusal::NoSuchState => write!(f, "no such state"),
            Refusal::NoSuchSocket => write!(f, "no such socket"),
        }
    }
}
