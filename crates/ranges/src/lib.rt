// The settings of one rule: the first that is at fault.
#![tactic(auto)]

ghost use Rattle.std.specs.Prelude.{◌≡◌, [], ◌∷◌, ◌&&◌, ◌||◌};
ghost use Rattle.table.specs.Settings.{is_unset};
ghost use Rattle.table.specs.Words.{link_in, ipv4_in, ipv6_in, transport_in, rate_in, tracking_in, rule_in};
ghost use Rattle.ranges.specs.Ranges.{
  head_tests,
  link_tests,
  ipv4_tests,
  no_ipv4,
  ipv6_tests,
  ip_tests,
  transport_tests,
  rate_tests,
  all_of,
  part_tests,
  tracking_tests,
  rule_tests,
  may_track,
  fault_in,
  test as test_of,
};

pub mod setting_number;
pub mod within;

use setting_number::SettingNumber;
use table::settings::*;
use table::words::*;
use table::*;
use within::*;

// A MAC is below 2^48.
const MOST_MAC: u64 = 0xFFFFFFFFFFFF;

// How long a prefix may be, of IPv4 and of IPv6.
const IPV4_BITS: u8 = 32;

const IPV6_BITS: u8 = 128;

// The test of one setting, which is at fault where it fails. Both sides of an `&` cost nothing here and below, and the compiler need not jump.
fn test(good: bool, setting: SettingNumber) -> Result<(), SettingNumber>
    ensures { result ≡ fault_in (test_of setting good ∷ []) }
{
    if good { Ok(()) } else { Err(setting) }
}

// A setting whose value is within its range, and which is set only where it may be.
fn may_stand<T: Copy>(within: bool, s: Setting<T>, may: bool) -> bool
    ensures { result ≡ (within && (is_unset s || may)) }
{
    within & (s.is_unset() | may)
}

// The first setting of a layer that is at fault, in the paper's order. One whose every value is good is not looked at.
fn link_fault(s: LinkSettings) -> Result<(), SettingNumber>
    ensures { result ≡ fault_in (link_tests s) }
{
    test(
        s.destination.is_unset_or(|v| v <= MOST_MAC),
        SettingNumber::DestinationMac,
    )?;
    test(
        s.source.is_unset_or(|v| v <= MOST_MAC),
        SettingNumber::SourceMac,
    )?;
    test(s.vlan.is_unset_or(|v| v <= 4094), SettingNumber::VlanId)?;
    test(s.priority.is_unset_or(|v| v <= 7), SettingNumber::Priority)?;
    test(s.socket.is_unset_or(|v| v <= 1), SettingNumber::Socket)
}

// Not one function with `ipv6_fault`: of IPv4 a protocol is never at fault, and nothing is asked of what stands beside.
fn ipv4_fault(s: Ipv4Settings) -> Result<(), SettingNumber>
    ensures { result ≡ fault_in (ipv4_tests s) }
{
    test(prefix_good(s.source, IPV4_BITS), SettingNumber::Ipv4Source)?;
    test(
        prefix_good(s.destination, IPV4_BITS),
        SettingNumber::Ipv4Destination,
    )
}

// Within its range, and not beside a setting of IPv4.
fn ipv6_fault(s: Ipv6Settings, alone: bool) -> Result<(), SettingNumber>
    ensures { result ≡ fault_in (ipv6_tests s alone) }
{
    test(
        may_stand(prefix_good(s.source, IPV6_BITS), s.source, alone),
        SettingNumber::Ipv6Source,
    )?;
    test(
        may_stand(prefix_good(s.destination, IPV6_BITS), s.destination, alone),
        SettingNumber::Ipv6Destination,
    )?;
    test(
        may_stand(true, s.protocol, alone),
        SettingNumber::Ipv6Protocol,
    )
}

fn transport_fault(s: TransportSettings) -> Result<(), SettingNumber>
    ensures { result ≡ fault_in (transport_tests s) }
{
    test(kind_good(s.kind), SettingNumber::Kind)?;
    test(ports_good(s.kind, s.source), SettingNumber::SourcePorts)?;
    test(
        ports_good(s.kind, s.destination),
        SettingNumber::DestinationPorts,
    )
}

// Both or neither: half a pair names its set half.
fn rate_fault(s: RateSettings) -> Result<(), SettingNumber>
    ensures { result ≡ fault_in (rate_tests s) }
{
    match (s.size, s.refill) {
        (Setting::Set(_), Setting::Unset) => Err(SettingNumber::BucketSize),
        (Setting::Unset, Setting::Set(_)) => Err(SettingNumber::Refill),
        _ => Ok(()),
    }
}

// The first of the four that is not within its range, or is set where it may not be.
fn part_fault(s: TrackingSettings, may: bool) -> Result<(), SettingNumber>
    ensures { result ≡ fault_in (part_tests s may) }
{
    test(
        may_stand(places_good(s.places), s.places, may),
        SettingNumber::Places,
    )?;
    test(
        may_stand(limit_good(s.limit), s.limit, may),
        SettingNumber::IdleLimit,
    )?;
    test(
        may_stand(within_places(s.places, s.number0), s.number0, may),
        SettingNumber::Number0,
    )?;
    test(
        may_stand(within_places(s.places, s.number1), s.number1, may),
        SettingNumber::Number1,
    )
}

// The same where all four are set: each within its range, and only on a rule that may track. Of its own, since the four read one by one cost more (docs/PERFORMANCE.md).
fn room_fault(m: Room, may: bool) -> Result<(), SettingNumber>
    ensures { result ≡ fault_in (part_tests (all_of m) may) }
{
    test(
        (1 <= m.places) & (m.places <= MOST_PLACES) & may,
        SettingNumber::Places,
    )?;
    test(
        (1 <= m.limit) & (m.limit <= MOST_LIMIT) & may,
        SettingNumber::IdleLimit,
    )?;
    test((m.number0 <= m.places) & may, SettingNumber::Number0)?;
    test((m.number1 <= m.places) & may, SettingNumber::Number1)
}

fn may_track(r: &RuleWords) -> bool
    ensures { result ≡ may_track (rule_in r.now) }
{
    is_allow(rule_action(r)) & is_tcp(transport(r).kind)
}

// The id, which is fresh where no earlier rule has it, and the action.
fn head_fault(fresh: bool, r: &RuleWords) -> Result<(), SettingNumber>
    ensures { result ≡ fault_in (head_tests fresh (rule_in r.now)) }
{
    test((id(r) <= 65534) & fresh, SettingNumber::Id)?;
    test(action_good(rule_action(r)), SettingNumber::Action)
}

// The same of each layer of a row, each by the words and the tests of its own. Where none of its settings is set none is at fault, which spares reading them.
fn link_in_row(r: &RuleWords) -> Result<(), SettingNumber>
    ensures { result ≡ fault_in (link_tests (link_in r.now)) }
{
    if none_set(r, LINK) {
        return Ok(());
    }
    link_fault(link(r))
}

fn ip_in_row(r: &RuleWords) -> Result<(), SettingNumber>
    ensures { result ≡ fault_in (ip_tests (ipv4_in r.now) (ipv6_in r.now)) }
{
    if none_set(r, IP) {
        return Ok(());
    }
    ipv4_fault(ipv4(r))?;
    ipv6_in_row(r)
}

fn ipv6_in_row(r: &RuleWords) -> Result<(), SettingNumber>
    ensures { result ≡ fault_in (ipv6_tests (ipv6_in r.now) (no_ipv4 (ipv4_in r.now))) }
{
    if no_ipv6(r) {
        return Ok(());
    }
    ipv6_fault(ipv6(r), no_ipv4(r))
}

fn transport_in_row(r: &RuleWords) -> Result<(), SettingNumber>
    ensures { result ≡ fault_in (transport_tests (transport_in r.now)) }
{
    if none_set(r, TRANSPORT) {
        return Ok(());
    }
    transport_fault(transport(r))
}

fn rate_in_row(r: &RuleWords) -> Result<(), SettingNumber>
    ensures { result ≡ fault_in (rate_tests (rate_in r.now)) }
{
    if none_set(r, RATE) {
        return Ok(());
    }
    rate_fault(rate(r))
}

// All four are set, or not all: then each that is set is at fault.
fn tracking_in_row(r: &RuleWords) -> Result<(), SettingNumber>
    ensures { result ≡ fault_in (tracking_tests (tracking_in r.now) (may_track (rule_in r.now))) }
{
    if none_set(r, TRACKING) {
        return Ok(());
    }
    match tracking(r) {
        None => part_fault(tracking_settings(r), false),
        Some(m) => room_fault(m, may_track(r)),
    }
}

// All that can be wrong with a rule, up to the first setting that is at fault.
#[tactic(auto, using(crate::proofs::Rules::by_layers))]
pub fn rule_fault(fresh: bool, r: &RuleWords) -> Result<(), SettingNumber>
    ensures { result ≡ fault_in (rule_tests fresh (rule_in r.now)) }
{
    head_fault(fresh, r)?;
    link_in_row(r)?;
    ip_in_row(r)?;
    transport_in_row(r)?;
    rate_in_row(r)?;
    tracking_in_row(r)
}
