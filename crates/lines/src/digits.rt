// Numbers in decimal digits, written to the start of a space.
ghost use Rattle.std.specs.Prelude.{[], ◌∷◌, ◌++◌, ◌≤◌, length};
ghost use Rattle.numbers.specs.Lists.{Wrote};
ghost use Rattle.lines.specs.Decimal.{decimal};

use itoa::Buffer;

pub(crate) fn put(text: &[u8], out: &mut [u8]) -> usize
    requires { length text.now ≤ length out.old }
    ensures { Wrote text.now out.old out.new result }
{
    out[..text.len()].copy_from_slice(text);
    text.len()
}

// A number, and a byte behind it.
pub(crate) fn word(x: u64, behind: u8, out: &mut [u8]) -> usize
    requires { 21 ≤ length out.old }
    ensures text { Wrote (decimal x ++ (behind ∷ [])) out.old out.new result }
    ensures most { result ≤ 21 }
{
    let mut buffer = Buffer::new();
    let n = put(buffer.format(x).as_bytes(), out);
    out[n] = behind;
    n + 1
}
