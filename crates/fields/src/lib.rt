// The words of one rule, a field above the other: each layer has a word with its marks and its values.
#![tactic(auto)]

ghost use Rattle.std.specs.Prelude.{◌≡◌, ◌+◌, ◌*◌, ◌^◌, ◌<◌};
ghost use Rattle.table.specs.Words.{action_code, kind_code};
ghost use Rattle.fields.specs.Fields.{
  Laid,
  bit_of,
  marks_of,
  kind_or,
  prefix6_or,
  rule_fields,
  link_fields,
  ip_fields,
  ipv6_fields,
  address_fields,
  transport_fields,
  port_fields,
  someip_fields,
  rate_fields,
  tracking_fields,
};
ghost use Rattle.table.specs.Marks.{link_unset, ip_unset, transport_unset, someip_unset, rate_unset, tracking_unset};

use addresses::Wide;
use table::words::*;
use table::*;

// The mark of a setting that is unset, or is not, with those that stand above it.
fn mark(unset: bool, above: u8) -> u8
    requires { above < 128 }
    ensures { result ≡ above * 2 + bit_of unset }
{
    above * 2 + u8::from(!unset)
}

// A field of so many bits with what stands above it.
fn field(bits: u32, v: u64, above: u64) -> u64
    requires bits { bits < 64 }
    requires fits { above * 2 ^ bits + v < 2 ^ 64 }
    ensures { result ≡ above * 2 ^ bits + v }
{
    (above << bits) + v
}

// What stands where a setting is unset.
const NO_RANGE: Range = Range { low: 0, high: 0 };

// Two, since a constant names its type.
const NO_PREFIX: Prefix<u32> = Prefix {
    address: 0,
    length: 0,
};

const NO_PREFIX6: Prefix<Wide> = Prefix {
    address: Wide { high: 0, low: 0 },
    length: 0,
};

// The address of an IPv6 prefix, whose two words stand in the row as they are.
pub fn address6(s: Setting<Prefix<Wide>>) -> Wide
    ensures { result ≡ (prefix6_or s).address }
{
    s.value_or(NO_PREFIX6).address
}

// The code of an action, and of a kind: functions and no From, since words are laid by the definitions action_code and kind_code.
pub fn action_code(a: Action) -> u64
    ensures value { result ≡ action_code a }
    ensures small { result < 256 }
{
    match a {
        Action::Allow => ALLOW,
        Action::Block => BLOCK,
        Action::Unknown => UNKNOWN,
    }
}

fn kind_code(k: Kind) -> u64
    ensures { result ≡ kind_code k }
{
    match k {
        Kind::Udp => UDP,
        Kind::Tcp => TCP,
        Kind::Unknown => UNKNOWN,
    }
}

// The code of a kind, 0 where it is unset.
fn kind_value(s: Setting<Kind>) -> u64
    ensures { result ≡ kind_or s }
{
    match s {
        Setting::Unset => 0,
        Setting::Set(k) => kind_code(k),
    }
}

// The marks of each layer, the lowest byte of its head word.
fn link_marks(s: LinkSettings) -> u8
    ensures { result ≡ marks_of (link_unset s) }
{
    let m = mark(s.ether.is_unset(), mark(s.socket.is_unset(), 0));
    let m = mark(s.vlan.is_unset(), mark(s.priority.is_unset(), m));
    mark(s.destination.is_unset(), mark(s.source.is_unset(), m))
}

fn ip_marks(s: Ipv4Settings, z: Ipv6Settings) -> u8
    ensures { result ≡ marks_of (ip_unset s z) }
{
    let m = mark(
        z.source.is_unset(),
        mark(z.destination.is_unset(), mark(z.protocol.is_unset(), 0)),
    );
    mark(
        s.source.is_unset(),
        mark(s.destination.is_unset(), mark(s.protocol.is_unset(), m)),
    )
}

fn transport_marks(s: TransportSettings) -> u8
    ensures { result ≡ marks_of (transport_unset s) }
{
    mark(
        s.kind.is_unset(),
        mark(s.source.is_unset(), mark(s.destination.is_unset(), 0)),
    )
}

fn someip_marks(s: SomeipSettings) -> u8
    ensures { result ≡ marks_of (someip_unset s) }
{
    let m = mark(s.kind.is_unset(), mark(s.code.is_unset(), 0));
    mark(
        s.service.is_unset(),
        mark(s.method.is_unset(), mark(s.version.is_unset(), m)),
    )
}

fn rate_marks(s: RateSettings) -> u8
    ensures { result ≡ marks_of (rate_unset s) }
{
    mark(s.size.is_unset(), mark(s.refill.is_unset(), 0))
}

fn tracking_marks(s: TrackingSettings) -> u8
    ensures { result ≡ marks_of (tracking_unset s) }
{
    let m = mark(s.number0.is_unset(), mark(s.number1.is_unset(), 0));
    mark(s.places.is_unset(), mark(s.limit.is_unset(), m))
}

// The words of a row, but for the MACs and the IPv6 addresses: their fields from the highest bit down.
pub fn rule_word(r: Rule) -> u64
    ensures { Laid (rule_fields r) result }
{
    field(16, r.id.into(), field(8, action_code(r.action), 0))
}

pub fn link_word(s: LinkSettings) -> u64
    ensures { Laid (link_fields s) result }
{
    let w = field(8, s.socket.value_or(0).into(), 0);
    let w = field(16, s.ether.value_or(0).into(), w);
    let w = field(8, s.priority.value_or(0).into(), w);
    let w = field(16, s.vlan.value_or(0).into(), w);
    field(8, link_marks(s).into(), w)
}

pub fn ip_word(s: Ipv4Settings, z: Ipv6Settings) -> u64
    ensures { Laid (ip_fields s z) result }
{
    let w = field(8, s.protocol.value_or(0).into(), ipv6_half(z));
    let w = field(8, s.destination.value_or(NO_PREFIX).length.into(), w);
    let w = field(8, s.source.value_or(NO_PREFIX).length.into(), w);
    field(8, ip_marks(s, z).into(), w)
}

// The upper half of the IP word.
fn ipv6_half(z: Ipv6Settings) -> u64
    ensures { Laid (ipv6_fields z) result }
{
    let w = field(8, z.protocol.value_or(0).into(), 0);
    let w = field(8, z.destination.value_or(NO_PREFIX6).length.into(), w);
    field(8, z.source.value_or(NO_PREFIX6).length.into(), w)
}

pub fn address_word(s: Ipv4Settings) -> u64
    ensures { Laid (address_fields s) result }
{
    let w = field(32, s.destination.value_or(NO_PREFIX).address.into(), 0);
    field(32, s.source.value_or(NO_PREFIX).address.into(), w)
}

pub fn transport_word(s: TransportSettings) -> u64
    ensures { Laid (transport_fields s) result }
{
    let w = field(8, kind_value(s.kind), 0);
    field(8, transport_marks(s).into(), w)
}

pub fn port_word(s: TransportSettings) -> u64
    ensures { Laid (port_fields s) result }
{
    let a = s.source.value_or(NO_RANGE);
    let b = s.destination.value_or(NO_RANGE);
    let w = field(16, b.low.into(), field(16, b.high.into(), 0));
    field(16, a.low.into(), field(16, a.high.into(), w))
}

pub fn someip_word(s: SomeipSettings) -> u64
    ensures { Laid (someip_fields s) result }
{
    let w = field(8, s.code.value_or(0).into(), 0);
    let w = field(8, s.kind.value_or(0).into(), w);
    let w = field(8, s.version.value_or(0).into(), w);
    let w = field(16, s.method.value_or(0).into(), w);
    let w = field(16, s.service.value_or(0).into(), w);
    field(8, someip_marks(s).into(), w)
}

pub fn rate_word(s: RateSettings) -> u64
    ensures { Laid (rate_fields s) result }
{
    let w = field(16, s.refill.value_or(0).into(), 0);
    let w = field(16, s.size.value_or(0).into(), w);
    field(8, rate_marks(s).into(), w)
}

pub fn tracking_word(s: TrackingSettings) -> u64
    ensures { Laid (tracking_fields s) result }
{
    let w = field(8, s.number1.value_or(0).into(), 0);
    let w = field(8, s.number0.value_or(0).into(), w);
    let w = field(32, s.limit.value_or(0).into(), w);
    let w = field(8, s.places.value_or(0).into(), w);
    field(8, tracking_marks(s).into(), w)
}
