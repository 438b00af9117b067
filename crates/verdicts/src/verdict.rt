// The verdicts of the paper.
ghost use Rattle.std.specs.Prelude.{◌≡◌};
ghost use Rattle.verdicts.specs.Rule.{passes, verdict_of};
ghost use Rattle.verdicts.specs.Verdict.{verdict_number};

use conversations::Progress;

#[derive(Clone, Copy, PartialEq, Eq)]
pub enum Verdict {
    Allowed,
    AllowedByDefault,
    BlockedByRule,
    OverRate,
    NoPlaceFree,
    BlockedByDefault,
    WrongFlags,
    NoConversation,
    NotInState,
}

impl Verdict {
    pub const ALLOWED: u8 = 0;

    pub const ALLOWED_BY_DEFAULT: u8 = 1;

    pub const BLOCKED_BY_RULE: u8 = 2;

    pub const OVER_RATE: u8 = 3;

    pub const NO_PLACE_FREE: u8 = 5;

    pub const BLOCKED_BY_DEFAULT: u8 = 6;

    pub const WRONG_FLAGS: u8 = 40;

    pub const NO_CONVERSATION: u8 = 41;

    pub const NOT_IN_STATE: u8 = 42;

    pub fn number(self) -> u8
        ensures { result ≡ verdict_number self }
    {
        match self {
            Verdict::Allowed => Verdict::ALLOWED,
            Verdict::AllowedByDefault => Verdict::ALLOWED_BY_DEFAULT,
            Verdict::BlockedByRule => Verdict::BLOCKED_BY_RULE,
            Verdict::OverRate => Verdict::OVER_RATE,
            Verdict::NoPlaceFree => Verdict::NO_PLACE_FREE,
            Verdict::BlockedByDefault => Verdict::BLOCKED_BY_DEFAULT,
            Verdict::WrongFlags => Verdict::WRONG_FLAGS,
            Verdict::NoConversation => Verdict::NO_CONVERSATION,
            Verdict::NotInState => Verdict::NOT_IN_STATE,
        }
    }

    // Verdicts 0 and 1.
    pub(crate) fn passes(self) -> bool
        ensures { result ≡ passes (verdict_number self) }
    {
        matches!(self, Verdict::Allowed | Verdict::AllowedByDefault)
    }
}

// What tracking says.
impl From<Progress> for Verdict {
    ghost from_gives = { λ p v. verdict_number v ≡ verdict_of p };

    fn from(p: Progress) -> Verdict {
        match p {
            Progress::Holds => Verdict::Allowed,
            Progress::WrongFlags => Verdict::WrongFlags,
            Progress::NoConversation => Verdict::NoConversation,
            Progress::NotInState => Verdict::NotInState,
            Progress::NoPlaceFree => Verdict::NoPlaceFree,
        }
    }
}
