// The table, a line for each rule: the settings that are set, by name.
use crate::words::action;
use addresses::Wide;
use std::fmt::{Display, Formatter, Radix, Write};
use std::net::Ipv4Addr;
use std::{fmt, io};
use table::*;

// A list of settings as it is written.
#[derive(Drop)]
struct Names<'a, W> {
    to: &'a mut Formatter<W>,
    later: bool,
}

impl<W: Write> Names<'_, W> {
    // One that is set, after a comma where it is not the first.
    fn put(&mut self, what: impl Display + Drop) -> fmt::Result {
        if self.later {
            write!(self.to, ", ")?;
        }
        self.later = true;
        write!(self.to, "{what}")
    }

    fn decimal<T: Copy + Display>(
        &mut self,
        before: impl Display + Drop,
        s: Setting<T>,
        behind: &str,
    ) -> fmt::Result {
        match s {
            Setting::Unset => Ok(()),
            Setting::Set(v) => self.put(format_args!("{before}{v}{behind}")),
        }
    }

    // In hexadecimal, of so many digits.
    fn hex<T: Copy + Radix>(&mut self, before: &str, s: Setting<T>, width: usize) -> fmt::Result {
        match s {
            Setting::Unset => Ok(()),
            Setting::Set(v) => self.put(format_args!("{before}{v:0width$x}")),
        }
    }

    fn prefix<A: Copy, D: Display + Drop, S: Fn(A) -> D>(
        &mut self,
        before: impl Display + Drop,
        s: Setting<Prefix<A>>,
        shown: S,
    ) -> fmt::Result
        requires { S.IsAlwaysCallable shown }
    {
        match s {
            Setting::Unset => Ok(()),
            Setting::Set(p) => self.put(format_args!("{before}{}/{}", shown(p.address), p.length)),
        }
    }

    fn ports(&mut self, end: &str, s: Setting<Range>) -> fmt::Result {
        match s {
            Setting::Unset => Ok(()),
            Setting::Set(r) if r.low == r.high => self.put(format_args!("{end} port {}", r.high)),
            Setting::Set(r) => self.put(format_args!("{end} ports {}-{}", r.low, r.high)),
        }
    }

    fn link(&mut self, s: LinkSettings) -> fmt::Result {
        self.hex("destination MAC ", s.destination, 12)?;
        self.hex("source MAC ", s.source, 12)?;
        self.decimal("VLAN ", s.vlan, "")?;
        self.decimal("priority ", s.priority, "")?;
        self.hex("ether 0x", s.ether, 4)?;
        self.decimal("socket ", s.socket, "")
    }

    // Of one kind, which stands before each name; `shown` is how its addresses are written.
    fn ip<A: Copy, D: Display + Drop, S: Fn(A) -> D>(
        &mut self,
        kind: &str,
        s: IpSettings<A>,
        shown: S,
    ) -> fmt::Result
        requires { S.IsAlwaysCallable shown }
    {
        self.prefix(format_args!("{kind}source "), s.source, &shown)?;
        self.prefix(format_args!("{kind}destination "), s.destination, &shown)?;
        self.decimal(format_args!("{kind}protocol "), s.protocol, "")
    }

    fn transport(&mut self, s: TransportSettings) -> fmt::Result {
        match s.kind {
            Setting::Unset => Ok(()),
            Setting::Set(Kind::Tcp) => self.put("TCP"),
            Setting::Set(Kind::Udp) => self.put("UDP"),
            Setting::Set(Kind::Unknown) => self.put("unknown kind"),
        }?;
        self.ports("source", s.source)?;
        self.ports("destination", s.destination)
    }

    fn someip(&mut self, s: SomeipSettings) -> fmt::Result {
        self.hex("service 0x", s.service, 4)?;
        self.hex("method 0x", s.method, 4)?;
        self.decimal("version ", s.version, "")?;
        self.hex("type 0x", s.kind, 2)?;
        self.hex("code 0x", s.code, 2)
    }

    fn limits(&mut self, rate: RateSettings, tracking: TrackingSettings) -> fmt::Result {
        self.decimal("bucket ", rate.size, "")?;
        self.decimal("refill ", rate.refill, " per second")?;
        self.decimal("", tracking.places, " places")?;
        self.decimal("idle limit ", tracking.limit, " ms")?;
        self.decimal("", tracking.number0, " for socket 0")?;
        self.decimal("", tracking.number1, " for socket 1")
    }
}

// An IPv6 address in eight groups of four digits, of which none is left out.
#[derive(Clone, Copy)]
struct Groups(Wide);

impl Display for Groups {
    fn fmt<W: Write>(&self, f: &mut Formatter<W>) -> fmt::Result {
        let Wide { high, low } = self.0;
        write!(f, "{}:{}", Half(high), Half(low))
    }
}

#[derive(Clone, Copy)]
struct Half(u64);

impl Display for Half {
    fn fmt<W: Write>(&self, f: &mut Formatter<W>) -> fmt::Result {
        let n = self.0;
        write!(
            f,
            "{:04x}:{:04x}:{:04x}:{:04x}",
            n >> 48,
            n >> 32 & 0xffff,
            n >> 16 & 0xffff,
            n & 0xffff
        )
    }
}

#[derive(Clone, Copy)]
pub(crate) struct RuleLine<'a>(pub &'a Rule);

impl Display for RuleLine<'_> {
    fn fmt<W: Write>(&self, f: &mut Formatter<W>) -> fmt::Result {
        let r = self.0;
        write!(f, "{}  {}  ", r.id, action(r.action))?;
        let mut names = Names {
            to: f,
            later: false,
        };
        names.link(r.link)?;
        names.ip("", r.ipv4, Ipv4Addr::from_bits)?;
        names.ip("IPv6 ", r.ipv6, Groups)?;
        names.transport(r.transport)?;
        names.someip(r.someip)?;
        names.limits(r.rate, r.tracking)
    }
}

// The rules in table order, and the default of the first state.
pub(crate) fn table(rt: &impl Print, t: &Table) -> io::Result<()> {
    for r in t.rules.iter().take(t.rulecount) {
        println!(rt; "{}", RuleLine(r))?;
    }
    println!(rt; "default  {}", action(t.states[0].default))
}
