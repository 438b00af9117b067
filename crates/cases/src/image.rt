// The image of a table and that of records, taken apart.
ghost use Rattle.std.specs.Prelude.{◌+◌, ◌≤◌, ◌<◌};

use addresses::{Wide, read128};
use numbers::{read16, read32, read48, read64};
use places::place::{ipv4_quad, ipv6_quad, phase_of, place_words};
use places::{PLACE_WORDS, PlaceWords, Quad, RulePlaces};
use records::{DEFAULT, RecordWords};
use table::{
    Action, IpSettings, Ipv4Settings, Ipv6Settings, Kind, LinkSettings, Prefix, RULES, Range,
    RateSettings, Rule, STATES, Setting, SomeipSettings, State, Table, TrackingSettings,
    TransportSettings,
};
use verdicts::CountWords;

// The bytes after a call's letter: the longest are those of a record image.
pub type Image = [u8; RECORDS];

type RuleImage = [u8; 192];

pub const TABLE: usize = 12370;

pub const RECORDS: usize = 33812;

fn action(b: u8) -> Action {
    if b == 0 { Action::Allow } else { Action::Block }
}

fn kind(b: u8) -> Kind {
    if b == 1 { Kind::Tcp } else { Kind::Udp }
}

// A setting by its bit among those that are set.
fn setting<T: Copy>(set: u32, bit: u32, value: T) -> Setting<T>
    requires { bit < 32 }
{
    if (set >> bit) % 2 == 1 {
        Setting::Set(value)
    } else {
        Setting::Unset
    }
}

// Two, since an address is read by a function of its kind.
fn prefix(r: &RuleImage, at: usize) -> Prefix<u32>
    requires { at + 5 ≤ 192 }
{
    Prefix {
        address: read32(r, at),
        length: r[at + 4],
    }
}

fn prefix6(r: &RuleImage, at: usize) -> Prefix<Wide>
    requires { at + 17 ≤ 192 }
{
    Prefix {
        address: read128(r, at),
        length: r[at + 16],
    }
}

fn range(r: &RuleImage, at: usize) -> Range
    requires { at + 4 ≤ 192 }
{
    Range {
        low: read16(r, at),
        high: read16(r, at + 2),
    }
}

fn link(r: &RuleImage, set: u32) -> LinkSettings {
    LinkSettings {
        destination: setting(set, 0, read48(r, 7)),
        source: setting(set, 1, read48(r, 13)),
        vlan: setting(set, 2, read16(r, 19)),
        priority: setting(set, 3, r[21]),
        ether: setting(set, 4, read16(r, 23)),
        socket: setting(set, 23, r[96]),
    }
}

// One for each kind of IP: the image gives each its offsets and its bits.
fn ipv4(r: &RuleImage, set: u32) -> Ipv4Settings {
    IpSettings {
        source: setting(set, 5, prefix(r, 25)),
        destination: setting(set, 6, prefix(r, 30)),
        protocol: setting(set, 7, r[35]),
    }
}

fn ipv6(r: &RuleImage, set: u32) -> Ipv6Settings {
    IpSettings {
        source: setting(set, 20, prefix6(r, 61)),
        destination: setting(set, 21, prefix6(r, 78)),
        protocol: setting(set, 22, r[95]),
    }
}

fn transport(r: &RuleImage, set: u32) -> TransportSettings {
    TransportSettings {
        kind: setting(set, 8, kind(r[36])),
        source: setting(set, 9, range(r, 37)),
        destination: setting(set, 10, range(r, 41)),
    }
}

fn someip(r: &RuleImage, set: u32) -> SomeipSettings {
    SomeipSettings {
        service: setting(set, 11, read16(r, 45)),
        method: setting(set, 12, read16(r, 47)),
        version: setting(set, 13, r[49]),
        kind: setting(set, 14, r[50]),
        code: setting(set, 15, r[51]),
    }
}

fn rate(r: &RuleImage, set: u32) -> RateSettings {
    RateSettings {
        size: setting(set, 16, read16(r, 52)),
        refill: setting(set, 17, read16(r, 54)),
    }
}

fn tracking(r: &RuleImage, set: u32) -> TrackingSettings {
    TrackingSettings {
        places: setting(set, 18, r[56]),
        limit: setting(set, 19, read32(r, 57)),
        number0: setting(set, 24, r[97]),
        number1: setting(set, 25, r[98]),
    }
}

fn rule(r: &RuleImage) -> Rule {
    let set = read32(r, 3);
    Rule {
        id: read16(r, 0),
        action: action(r[2]),
        link: link(r, set),
        ipv4: ipv4(r, set),
        ipv6: ipv6(r, set),
        transport: transport(r, set),
        someip: someip(r, set),
        rate: rate(r, set),
        tracking: tracking(r, set),
    }
}

// The image of the one rule is copied out, so that its settings stand at the places that the page gives.
fn rule_at(s: &Image, at: usize) -> Rule
    requires { at + 192 ≤ 33812 }
{
    let mut r = [0; 192];
    r.copy_from_slice(&s[at..at + 192]);
    rule(&r)
}

fn rules(s: &Image) -> [Rule; RULES] {
    let mut all = [rule(&[0; 192]); RULES];
    for (k, r) in all.iter_mut().enumerate() {
        *r = rule_at(s, 1 + 192 * k);
    }
    all
}

fn state(s: &Image, at: usize) -> State
    requires { at + 10 ≤ 33812 }
{
    State {
        default: action(s[at]),
        marks: read64(s, at + 1),
    }
}

fn states(s: &Image) -> [State; STATES] {
    let mut all = [state(s, 12290); STATES];
    for (k, st) in all.iter_mut().enumerate() {
        *st = state(s, 12290 + 10 * k);
    }
    all
}

pub(crate) fn table_of(s: &Image) -> Table {
    Table {
        rulecount: usize::from(s[0]),
        rules: rules(s),
        statecount: usize::from(s[12289]),
        states: states(s),
    }
}

// A free place is all zeros, and a state above 3 is Closing: what an image cannot say, it cannot hold.
fn place(s: &Image, at: usize) -> PlaceWords
    requires { at + 64 ≤ 33812 }
{
    if s[at] == 0 {
        return [0; PLACE_WORDS];
    }
    let f = phase_of(u64::from(s[at]));
    place_words(conversation(s, at), f, read32(s, at + 13))
}

// Of the addresses those of the other kind are ignored.
fn conversation(s: &Image, at: usize) -> Quad
    requires { at + 64 ≤ 33812 }
{
    let second = s[at + 50] != 0;
    let ports = read32(s, at + 9);
    if s[at + 17] == 0 {
        ipv4_quad(second, read32(s, at + 1), read32(s, at + 5), ports)
    } else {
        ipv6_quad(second, read128(s, at + 18), read128(s, at + 34), ports)
    }
}

fn held(s: &Image, at: usize, places: &mut RulePlaces)
    requires { at + 528 ≤ 33812 }
{
    for (j, p) in places.iter_mut().enumerate() {
        *p = place(s, at + 16 + 64 * j);
    }
}

// The image has the level of socket 1 behind the counts, since it came later.
fn counts_at(s: &Image, at: usize) -> CountWords
    requires { at + 528 ≤ 33812 }
{
    [
        read32(s, at),
        read32(s, at + 12),
        read32(s, at + 4),
        read32(s, at + 8),
    ]
}

pub(crate) fn records_of(s: &Image, words: &mut RecordWords) {
    words.head = [read64(s, 0), u64::from(read32(s, 8))];
    for (k, places) in words.places.iter_mut().enumerate() {
        let at = 20 + 528 * k;
        words.counts[k] = counts_at(s, at);
        held(s, at, places);
    }
    words.counts[DEFAULT] = [0, 0, read32(s, 12), read32(s, 16)];
}
