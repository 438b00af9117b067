// The lines that are printed of an answer and of the records.
ghost use Rattle.std.specs.Prelude.{◌≡◌};
ghost use Rattle.payloads.specs.Inside.{BundleInside, SomeipInside};
ghost use Rattle.layers.specs.Inside.{Inside};
ghost use Rattle.layers.specs.Layers.{shown_of};

use crate::calls::UNWRITTEN;
use addresses::{Address, Wide};
use firewall::Refusal;
use layers::{FrameRefusal, Layers};
use packets::{Ip, Link, Packet6};
use payloads::someip_layer::message_at;
use payloads::{Bundle, Segment, Transport};
use places::place::{age, destination, quad, source, state};
use places::{PlaceWords, RulePlaces};
use records::{ACTIVE, DEFAULT, LAST, RecordWords};
use std::io;
use std::io::Write;
use steps::Answer;
use verdicts::{BLOCKED, CountWords, LEVEL0, LEVEL1, PASSED};

// A refusal's three numbers.
fn refused(r: Refusal, out: &mut impl Write) -> io::Result<()> {
    write!(out, "X {} {} {}", r.number(), r.place(), r.setting())
}

// A call that answers nothing but that it is done: a line of its letter alone.
pub(crate) fn done(
    letter: char,
    answer: Result<(), Refusal>,
    out: &mut impl Write,
) -> io::Result<()> {
    match answer {
        Ok(()) => write!(out, "{letter}"),
        Err(r) => refused(r, out),
    }?;
    writeln!(out)
}

pub(crate) fn judged(
    answer: Result<Answer, Refusal>,
    space: &[u8],
    out: &mut impl Write,
) -> io::Result<()> {
    let length = match answer {
        Ok(a) => {
            answered(a, space, out)?;
            a.length
        }
        Err(r) => {
            refused(r, out)?;
            0
        }
    };
    if space.iter().skip(length).any(|b| *b != UNWRITTEN) {
        write!(out, " dirty")?;
    }
    writeln!(out)
}

fn answered(a: Answer, space: &[u8], out: &mut impl Write) -> io::Result<()> {
    write!(out, "J {} {} {} ", a.verdict.number(), a.rule, a.length)?;
    if a.length == 0 {
        return write!(out, "-");
    }
    for b in space.iter().take(a.length) {
        write!(out, "{b:02x}")?;
    }
    Ok(())
}

#[tactic(auto, using(layers::proofs::Laws::shows_inside))]
pub(crate) fn shown(
    bytes: &[u8],
    answer: Result<Layers, FrameRefusal>,
    out: &mut impl Write,
) -> io::Result<()>
    requires { answer ≡ shown_of bytes.now }
{
    match answer {
        Ok(l) => frame(bytes, l, out),
        Err(f) => refused(f.into(), out),
    }?;
    writeln!(out)
}

fn frame(bytes: &[u8], l: Layers, out: &mut impl Write) -> io::Result<()>
    requires { Inside bytes.now l }
{
    write!(out, "L")?;
    link(l.link, out)?;
    ip(l.ip, out)?;
    transport(l.transport, out)?;
    someip(bytes, l.someip, out)
}

fn link(l: Link, out: &mut impl Write) -> io::Result<()> {
    write!(out, " {:012x} {:012x}", l.destination, l.source)?;
    match l.tag {
        None => write!(out, " -"),
        Some(t) => write!(out, " {},{}", t.priority, t.vlan),
    }?;
    write!(out, " {}", l.ether)
}

fn ip(i: Ip, out: &mut impl Write) -> io::Result<()> {
    match i {
        Ip::Absent => write!(out, " -"),
        Ip::V4(p) => write!(
            out,
            " {},{},{},{}",
            p.source, p.destination, p.protocol, p.hlen
        ),
        Ip::V6(p) => packet6(p, out),
    }
}

// The number after the chain, or that the chain fails.
fn packet6(p: Packet6, out: &mut impl Write) -> io::Result<()> {
    write!(out, " 6,")?;
    wide(p.source, out)?;
    write!(out, ",")?;
    wide(p.destination, out)?;
    match p.chain {
        None => write!(out, ",-"),
        Some(u) => write!(out, ",{}", u.number),
    }
}

fn wide(a: Wide, out: &mut impl Write) -> io::Result<()> {
    write!(out, "{:016x}{:016x}", a.high, a.low)
}

fn transport(t: Transport, out: &mut impl Write) -> io::Result<()> {
    match t {
        Transport::Absent => write!(out, " -"),
        Transport::Tcp(s) => segment(s, out),
        Transport::Udp(d) => write!(out, " U,{},{}", d.source, d.destination),
    }
}

fn segment(s: Segment, out: &mut impl Write) -> io::Result<()> {
    write!(out, " T,{},{}", s.source, s.destination)?;
    for flag in [s.fin, s.syn, s.rst, s.ack] {
        write!(out, ",{}", u8::from(flag))?;
    }
    write!(out, ",{}", s.hlen)
}

fn someip(bytes: &[u8], s: Option<Bundle>, out: &mut impl Write) -> io::Result<()>
    requires { SomeipInside bytes.now s }
{
    match s {
        None => write!(out, " -"),
        Some(b) => messages(bytes, b, out),
    }
}

// Every message, one behind the other.
fn messages(bytes: &[u8], b: Bundle, out: &mut impl Write) -> io::Result<()>
    requires { BundleInside bytes.now b }
{
    let mut before = ' ';
    let mut at = b.payload;
    let mut len = b.plen;
    // No range of numbers goes from one message to the next: the bytes of each tell its size.
    while len > 0 {
        let m = message_at(bytes, at);
        write!(
            out,
            "{before}{},{},{},{},{}",
            m.service, m.method, m.version, m.kind, m.code
        )?;
        before = ';';
        at += m.size;
        len -= m.size;
    }
    Ok(())
}

pub(crate) fn all_records(words: &RecordWords, out: &mut impl Write) -> io::Result<()> {
    let default = &words.counts[DEFAULT];
    writeln!(
        out,
        "P {} {} {} {}",
        words.head[LAST], words.head[ACTIVE], default[PASSED], default[BLOCKED]
    )?;
    for (k, places) in words.places.iter().enumerate() {
        rule(k, &words.counts[k], places, out)?;
    }
    writeln!(out, ".")
}

// Nothing of a rule that has no level, no count and no conversation.
fn rule(
    k: usize,
    counts: &CountWords,
    places: &RulePlaces,
    out: &mut impl Write,
) -> io::Result<()> {
    if counts.iter().all(|n| *n == 0) && places.iter().all(|p| state(p) == 0) {
        return Ok(());
    }
    writeln!(
        out,
        "p {k} {} {} {} {}",
        counts[LEVEL0], counts[LEVEL1], counts[PASSED], counts[BLOCKED]
    )?;
    for (j, p) in places.iter().enumerate() {
        if state(p) != 0 {
            conversation(k, j, p, out)?;
        }
    }
    Ok(())
}

// Its socket, addresses, ports, state and age.
fn conversation(k: usize, j: usize, p: &PlaceWords, out: &mut impl Write) -> io::Result<()> {
    let q = quad(p);
    write!(out, "c {k} {j} {}", u8::from(q.second))?;
    address(source(q), out)?;
    address(destination(q), out)?;
    writeln!(
        out,
        " {} {} {} {}",
        q.ports / 65536,
        q.ports % 65536,
        state(p),
        age(p)
    )
}

// An IPv4 address in decimal, an IPv6 one as 32 hex digits.
fn address(a: Address, out: &mut impl Write) -> io::Result<()> {
    if a.ipv6 {
        write!(out, " ")?;
        wide(a.bits, out)
    } else {
        write!(out, " {}", a.bits.low)
    }
}
