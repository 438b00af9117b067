// The bytes that were not used, kept for the next call.
ghost use Rattle.std.specs.Prelude.{◌-◌, ◌≤◌, length, take, drop};
ghost use Rattle.numbers.specs.Lists.{Wrote};

/// Moves the bytes from `at` to `end` to the start of the buffer, and answers how many they are: what a call did not use,
/// behind which the next part is read.
pub fn keep(buf: &mut [u8], at: usize, end: usize) -> usize
    requires order { at ≤ end }
    requires inside { end ≤ length buf.old }
    ensures { Wrote (take (end - at) (drop at buf.old)) buf.old buf.new result }
{
    buf.copy_within(at..end, 0);
    end - at
}
