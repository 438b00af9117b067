// The refusals of the paper.
ghost use Rattle.std.specs.Prelude.{◌≡◌};
ghost use Rattle.firewall.specs.declared.refusal.Refusal.TheVariants as refusal;
ghost use Rattle.firewall.specs.Firewall.{refused_as, frame_refused};

use faults::AtFault;
use layers::FrameRefusal;
use table::RULES;

// A bad table tells the first rule at fault and its first setting at fault.
#[derive(Clone, Copy)]
pub enum Refusal {
    TooShort,
    TooLong,
    NoSpace,
    BadTable(AtFault),
    BadRecord,
    NoSuchState,
    NoSuchSocket,
}

impl Refusal {
    pub const TOO_SHORT: u8 = 1;

    pub const TOO_LONG: u8 = 2;

    pub const NO_SPACE: u8 = 3;

    pub const BAD_TABLE: u8 = 4;

    pub const BAD_RECORD: u8 = 5;

    pub const NO_SUCH_STATE: u8 = 6;

    pub const NO_SUCH_SOCKET: u8 = 9;

    // What stands for the setting where the states or the rule count are at fault, which name none.
    pub const NO_SETTING: u8 = 255;

    pub fn number(self) -> u8
        ensures { result ≡ (refused_as self).number }
    {
        match self {
            Refusal::TooShort => Refusal::TOO_SHORT,
            Refusal::TooLong => Refusal::TOO_LONG,
            Refusal::NoSpace => Refusal::NO_SPACE,
            Refusal::BadTable(_) => Refusal::BAD_TABLE,
            Refusal::BadRecord => Refusal::BAD_RECORD,
            Refusal::NoSuchState => Refusal::NO_SUCH_STATE,
            Refusal::NoSuchSocket => Refusal::NO_SUCH_SOCKET,
        }
    }

    // The place of the rule at fault, 64 for the states or the rule count; 0 where no table is refused.
    pub fn place(self) -> usize
        ensures { result ≡ (refused_as self).place }
    {
        match self {
            Refusal::BadTable(AtFault::Rule { place, .. }) => place,
            Refusal::BadTable(AtFault::StatesOrRuleCount) => RULES,
            _ => 0,
        }
    }

    // The number of the setting at fault, 255 for the states or the rule count; 0 where no table is refused.
    pub fn setting(self) -> u8
        ensures { result ≡ (refused_as self).setting }
    {
        match self {
            Refusal::BadTable(AtFault::Rule { setting, .. }) => setting.number(),
            Refusal::BadTable(AtFault::StatesOrRuleCount) => Refusal::NO_SETTING,
            _ => 0,
        }
    }
}

// What reading the layers refuses is handed on.
impl From<FrameRefusal> for Refusal {
    ghost from_gives = { λ f r. r ≡ frame_refused f };

    fn from(f: FrameRefusal) -> Refusal {
        match f {
            FrameRefusal::TooShort => Refusal::TooShort,
            FrameRefusal::TooLong => Refusal::TooLong,
        }
    }
}

// What looking for a fault finds is handed on.
impl From<AtFault> for Refusal {
    ghost from_gives = { λ at r. r ≡ refusal.BadTable at };

    fn from(at: AtFault) -> Refusal {
        Refusal::BadTable(at)
    }
}
