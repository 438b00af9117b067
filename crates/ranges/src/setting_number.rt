// The settings of a rule by number, for whoever is told which one is at fault. A number never changes once given.
ghost use Rattle.std.specs.Prelude.{◌≡◌, true, map};
ghost use Rattle.table.specs.Table.{no_rule};
ghost use Rattle.ranges.specs.Numbers.{setting_number};
ghost use Rattle.ranges.specs.Ranges.{setting_of, rule_tests};

// How many settings a rule has, its id and its action among them.
pub const SETTINGS: usize = 28;

// The settings, in the paper's order, each with its number: a refused table names one by it.
#[derive(Clone, Copy, PartialEq, Eq)]
pub enum SettingNumber {
    Id = 0,
    Action = 28,
    DestinationMac = 1,
    SourceMac = 2,
    VlanId = 3,
    Priority = 4,
    EtherType = 5,
    Socket = 24,
    Ipv4Source = 6,
    Ipv4Destination = 7,
    Ipv4Protocol = 8,
    Ipv6Source = 21,
    Ipv6Destination = 22,
    Ipv6Protocol = 23,
    Kind = 9,
    SourcePorts = 10,
    DestinationPorts = 11,
    Service = 12,
    Method = 13,
    ProtocolVersion = 14,
    MessageType = 15,
    ReturnCode = 16,
    BucketSize = 17,
    Refill = 18,
    Places = 19,
    IdleLimit = 20,
    Number0 = 25,
    Number1 = 26,
}

impl SettingNumber {
    pub fn number(self) -> u8
        ensures { result ≡ setting_number self }
    {
        self as u8
    }

    // All of them, in the order in which a fault is looked for.
    #[tactic(auto, unfolding(crate::specs::Ranges::rule_tests))]
    pub fn in_order() -> [SettingNumber; SETTINGS]
        ensures { result ≡ map setting_of (rule_tests true no_rule) }
    {
        [
            SettingNumber::Id,
            SettingNumber::Action,
            SettingNumber::DestinationMac,
            SettingNumber::SourceMac,
            SettingNumber::VlanId,
            SettingNumber::Priority,
            SettingNumber::EtherType,
            SettingNumber::Socket,
            SettingNumber::Ipv4Source,
            SettingNumber::Ipv4Destination,
            SettingNumber::Ipv4Protocol,
            SettingNumber::Ipv6Source,
            SettingNumber::Ipv6Destination,
            SettingNumber::Ipv6Protocol,
            SettingNumber::Kind,
            SettingNumber::SourcePorts,
            SettingNumber::DestinationPorts,
            SettingNumber::Service,
            SettingNumber::Method,
            SettingNumber::ProtocolVersion,
            SettingNumber::MessageType,
            SettingNumber::ReturnCode,
            SettingNumber::BucketSize,
            SettingNumber::Refill,
            SettingNumber::Places,
            SettingNumber::IdleLimit,
            SettingNumber::Number0,
            SettingNumber::Number1,
        ]
    }
}
