// The flags of a segment: what they count as, and which step that is for a conversation.
#![tactic(auto)]

ghost use Rattle.std.specs.Prelude.{◌≡◌, ◌<◌};
ghost use Rattle.flags.specs.Flags.{kind_of, next_of};
ghost use Rattle.flags.specs.Kinds.{entry_of};

// The kinds that the four flags can count as. What is none of them is wrong: None stands for it.
#[derive(Clone, Copy, PartialEq, Eq)]
pub enum FlagKind {
    Open,
    Carry,
    End,
    Reset,
}

// The state of a conversation that is held.
#[derive(Clone, Copy, PartialEq, Eq)]
pub enum Phase {
    Opening,
    Running,
    Closing,
}

// A step of the table: not allowed in this state, the conversation removed, or its next state.
#[derive(Clone, Copy)]
pub enum Next {
    No,
    Removed,
    To(Phase),
}

// How many settings FIN, SYN, RST and ACK have.
pub const FLAG_SETTINGS: usize = 16;

// What each counts as: the one list that `flag_kind` reads and the program `flags` prints. An entry goes by its flags as a binary number, FIN first.
pub const KINDS: [Option<FlagKind>; FLAG_SETTINGS] = [
    None, // none of the four
    Some(FlagKind::Carry), // ACK
    Some(FlagKind::Reset), // RST
    Some(FlagKind::Reset), // RST ACK
    Some(FlagKind::Open), // SYN
    Some(FlagKind::Open), // SYN ACK
    None, // SYN RST
    None, // SYN RST ACK
    None, // FIN
    Some(FlagKind::End), // FIN ACK
    None, // FIN RST
    None, // FIN RST ACK
    None, // FIN SYN
    None, // FIN SYN ACK
    None, // FIN SYN RST
    None, // FIN SYN RST ACK
];

fn entry_of(fin: bool, syn: bool, rst: bool, ack: bool) -> usize
    ensures entry { result ≡ entry_of fin syn rst ack }
    ensures below { result < 16 }
{
    8 * usize::from(fin) + 4 * usize::from(syn) + 2 * usize::from(rst) + usize::from(ack)
}

// What the flags of a segment count as, None where they are wrong: called for each TCP segment that is judged.
pub fn flag_kind(fin: bool, syn: bool, rst: bool, ack: bool) -> Option<FlagKind>
    ensures { result ≡ kind_of fin syn rst ack }
{
    KINDS[entry_of(fin, syn, rst, ack)]
}

// The table of the paper, for a conversation that is held.
pub fn next_of(f: Phase, k: FlagKind) -> Next
    ensures { result ≡ next_of f k }
{
    match (f, k) {
        (Phase::Opening, FlagKind::Open) => Next::To(Phase::Opening),
        (Phase::Opening | Phase::Running, FlagKind::Carry) => Next::To(Phase::Running),
        (Phase::Closing, FlagKind::Carry) | (_, FlagKind::End) => Next::To(Phase::Closing),
        (Phase::Running | Phase::Closing, FlagKind::Open) => Next::No,
        (_, FlagKind::Reset) => Next::Removed,
    }
}
