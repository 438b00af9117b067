// Does one setting agree with what a frame shows? Both sides of an `&` cost nothing here, and the compiler need not jump.
ghost use Rattle.std.specs.Prelude.{◌≡◌};
ghost use Rattle.table.specs.Settings.{agrees, in_range, prefix_of, same_kind};
ghost use Rattle.matching.specs.Matching.{number_agrees};

use addresses::Bits;
use packets::Upper;
use table::*;

pub(crate) fn agrees<T: Copy + PartialEq>(s: Setting<T>, x: T) -> bool
    ensures { result ≡ agrees T.eq s x }
{
    s.is_unset_or(|v| v == x)
}

// A kind that is none agrees with nothing.
pub(crate) fn agrees_kind(s: Setting<Kind>, x: Kind) -> bool
    ensures { result ≡ agrees same_kind s x }
{
    s.is_unset_or(|k| (k == x) & (k != Kind::Unknown))
}

// Both ends are included.
pub(crate) fn agrees_range(s: Setting<Range>, x: u16) -> bool
    ensures { result ≡ agrees in_range s x }
{
    s.is_unset_or(|v| (v.low <= x) & (x <= v.high))
}

pub(crate) fn agrees_prefix<A: Bits>(s: Setting<Prefix<A>>, x: A) -> bool
    ensures { result ≡ agrees (prefix_of A.width A.number) s x }
{
    s.is_unset_or(|p| A::prefix_agrees(p.length, p.address, x))
}

// With the number after the chain, and with nothing where the chain fails.
fn number_agrees(v: u8, chain: Option<Upper>) -> bool
    ensures { result ≡ number_agrees v chain }
{
    chain.is_some_and(|upper| v == upper.number)
}

pub(crate) fn agrees_number(s: Setting<u8>, chain: Option<Upper>) -> bool
    ensures { result ≡ agrees number_agrees s chain }
{
    s.is_unset_or(|v| number_agrees(v, chain))
}
