// Table T of the worked set.
ghost use Rattle.std.specs.Prelude.{◌≡◌};
ghost use Rattle.paper.specs.TableT.{rule10, rule20, rule30, rule40, table_t};

use table::*;

// What is not set.
const NO_LINK: LinkSettings = LinkSettings {
    destination: Setting::Unset,
    source: Setting::Unset,
    vlan: Setting::Unset,
    priority: Setting::Unset,
    ether: Setting::Unset,
    socket: Setting::Unset,
};

// Two, since a constant names its type.
const NO_IPV4: Ipv4Settings = Ipv4Settings {
    source: Setting::Unset,
    destination: Setting::Unset,
    protocol: Setting::Unset,
};

const NO_IPV6: Ipv6Settings = Ipv6Settings {
    source: Setting::Unset,
    destination: Setting::Unset,
    protocol: Setting::Unset,
};

const NO_TRANSPORT: TransportSettings = TransportSettings {
    kind: Setting::Unset,
    source: Setting::Unset,
    destination: Setting::Unset,
};

const NO_SOMEIP: SomeipSettings = SomeipSettings {
    service: Setting::Unset,
    method: Setting::Unset,
    version: Setting::Unset,
    kind: Setting::Unset,
    code: Setting::Unset,
};

const NO_RATE: RateSettings = RateSettings {
    size: Setting::Unset,
    refill: Setting::Unset,
};

const NO_TRACKING: TrackingSettings = TrackingSettings {
    places: Setting::Unset,
    limit: Setting::Unset,
    number0: Setting::Unset,
    number1: Setting::Unset,
};

const NO_RULE: Rule = Rule {
    id: 0,
    action: Action::Allow,
    link: NO_LINK,
    ipv4: NO_IPV4,
    ipv6: NO_IPV6,
    transport: NO_TRANSPORT,
    someip: NO_SOMEIP,
    rate: NO_RATE,
    tracking: NO_TRACKING,
};

const NO_STATE: State = State {
    default: Action::Allow,
    marks: 0,
};

// "default block, all active": the four rules are marked.
const ALL_ACTIVE: State = State {
    default: Action::Block,
    marks: 0b1111,
};

// "10 allow, ether 0x0800, source 10.0.0.0/8, UDP destination 30501-30501, service 0x1000, type 0x80".
fn rule10() -> Rule
    ensures { result ≡ rule10 }
{
    Rule {
        id: 10,
        action: Action::Allow,
        link: LinkSettings {
            ether: Setting::Set(0x0800),
            ..NO_LINK
        },
        ipv4: Ipv4Settings {
            source: Setting::Set(Prefix {
                address: 0x0a000000,
                length: 8,
            }),
            ..NO_IPV4
        },
        ipv6: NO_IPV6,
        transport: TransportSettings {
            kind: Setting::Set(Kind::Udp),
            destination: Setting::Set(Range {
                low: 30501,
                high: 30501,
            }),
            ..NO_TRANSPORT
        },
        someip: SomeipSettings {
            service: Setting::Set(0x1000),
            kind: Setting::Set(0x80),
            ..NO_SOMEIP
        },
        rate: NO_RATE,
        tracking: NO_TRACKING,
    }
}

// "20 allow, TCP source 443-443, 2 places, limit 1,000"; "T allows each socket 2".
fn rule20() -> Rule
    ensures { result ≡ rule20 }
{
    Rule {
        id: 20,
        action: Action::Allow,
        link: NO_LINK,
        ipv4: NO_IPV4,
        ipv6: NO_IPV6,
        transport: TransportSettings {
            kind: Setting::Set(Kind::Tcp),
            source: Setting::Set(Range {
                low: 443,
                high: 443,
            }),
            ..NO_TRANSPORT
        },
        someip: NO_SOMEIP,
        rate: NO_RATE,
        tracking: TrackingSettings {
            places: Setting::Set(2),
            limit: Setting::Set(1000),
            number0: Setting::Set(2),
            number1: Setting::Set(2),
        },
    }
}

// "30 allow, ether 0x0806, size 2, refill 1".
fn rule30() -> Rule
    ensures { result ≡ rule30 }
{
    Rule {
        id: 30,
        action: Action::Allow,
        link: LinkSettings {
            ether: Setting::Set(0x0806),
            ..NO_LINK
        },
        ipv4: NO_IPV4,
        ipv6: NO_IPV6,
        transport: NO_TRANSPORT,
        someip: NO_SOMEIP,
        rate: RateSettings {
            size: Setting::Set(2),
            refill: Setting::Set(1),
        },
        tracking: NO_TRACKING,
    }
}

// "40 block, UDP destination 0-1023".
fn rule40() -> Rule
    ensures { result ≡ rule40 }
{
    Rule {
        id: 40,
        action: Action::Block,
        link: NO_LINK,
        ipv4: NO_IPV4,
        ipv6: NO_IPV6,
        transport: TransportSettings {
            kind: Setting::Set(Kind::Udp),
            destination: Setting::Set(Range { low: 0, high: 1023 }),
            ..NO_TRANSPORT
        },
        someip: NO_SOMEIP,
        rate: NO_RATE,
        tracking: NO_TRACKING,
    }
}

// The four rules, and the one state.
#[tactic(auto, unfolding(crate::specs::TableT::table_t))]
pub fn table() -> Table
    ensures { result ≡ table_t }
{
    let mut rules = [NO_RULE; RULES];
    rules[0] = rule10();
    rules[1] = rule20();
    rules[2] = rule30();
    rules[3] = rule40();
    let mut states = [NO_STATE; STATES];
    states[0] = ALL_ACTIVE;
    Table {
        rulecount: 4,
        rules,
        statecount: 1,
        states,
    }
}
