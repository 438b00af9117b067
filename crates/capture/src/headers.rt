// The file header, and the header of a record.
ghost use Rattle.std.specs.Prelude.{◌≡◌, ◌≤◌, length};
ghost use Rattle.capture.specs.Capture.{header_size, magic, is_of, header_of, head_size, time_of, head_of};

use crate::fields::{half, word};
use crate::*;

#[tactic(auto, unfolding(crate::specs::Capture::magic))]
fn magic_of(f: Form) -> u32
    ensures { result ≡ magic f }
{
    if f.nano { 0xA1B23C4D } else { 0xA1B2C3D4 }
}

#[tactic(auto, unfolding(crate::specs::Capture::is_of))]
fn is_of(f: Form, s: &[u8]) -> bool
    requires { header_size ≤ length s.now }
    ensures { result ≡ is_of f s.now }
{
    word(f.big, s, 0) == magic_of(f)
        && half(f.big, s, 4) == 2
        && half(f.big, s, 6) == 4
        && word(f.big, s, 20) == 1
}

// Both byte orders, each with micro- and with nanoseconds.
const FORMS: [Form; 4] = [
    Form {
        big: true,
        nano: false,
    },
    Form {
        big: true,
        nano: true,
    },
    Form {
        big: false,
        nano: false,
    },
    Form {
        big: false,
        nano: true,
    },
];

#[tactic(auto, unfolding(crate::specs::Capture::header_of))]
pub(crate) fn read_header(s: &[u8]) -> Option<Form>
    requires { header_size ≤ length s.now }
    ensures { result ≡ header_of s.now }
{
    FORMS.iter().copied().find(|f| is_of(*f, s))
}

#[tactic(auto, unfolding(crate::specs::Capture::time_of))]
fn time_of(f: Form, s: &[u8]) -> u64
    requires { head_size ≤ length s.now }
    ensures { result ≡ time_of f s.now }
{
    let seconds = u64::from(word(f.big, s, 0));
    let fraction = u64::from(word(f.big, s, 4));
    if f.nano {
        seconds * 1000 + fraction / 1000000
    } else {
        seconds * 1000 + fraction / 1000
    }
}

#[tactic(auto, unfolding(crate::specs::Capture::head_of))]
pub(crate) fn read_head(f: Form, s: &[u8]) -> Head
    requires { head_size ≤ length s.now }
    ensures { result ≡ head_of f s.now }
{
    Head {
        time: time_of(f, s),
        stored: word(f.big, s, 8) as usize,
        wire: word(f.big, s, 12) as usize,
    }
}
