// A number in either byte order. One function for each width: `from_be_bytes` is each type's own.
ghost use Rattle.std.specs.Prelude.{◌≡◌, ◌+◌, ◌≤◌, length};
ghost use Rattle.capture.specs.Fields.{number_at};

// Two bytes.
#[tactic(auto, using(crate::proofs::OnFields::number_two))]
pub(crate) fn half(big: bool, s: &[u8], at: usize) -> u16
    requires { at + 2 ≤ length s.now }
    ensures { result ≡ number_at big 2 s.now at }
{
    let bytes = [s[at], s[at + 1]];
    if big {
        u16::from_be_bytes(bytes)
    } else {
        u16::from_le_bytes(bytes)
    }
}

// Four bytes.
#[tactic(auto, using(crate::proofs::OnFields::number_four))]
pub(crate) fn word(big: bool, s: &[u8], at: usize) -> u32
    requires { at + 4 ≤ length s.now }
    ensures { result ≡ number_at big 4 s.now at }
{
    let bytes = [s[at], s[at + 1], s[at + 2], s[at + 3]];
    if big {
        u32::from_be_bytes(bytes)
    } else {
        u32::from_le_bytes(bytes)
    }
}
