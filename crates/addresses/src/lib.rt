// Addresses: 128 bits as two words, an address and its kind, and prefixes, of which only the leading bits are compared.
#![tactic(auto)]

ghost use Rattle.std.specs.Prelude.{◌≡◌, ℕ, ◌+◌, ◌*◌, ◌^◌, ◌≤◌, length};
ghost use Rattle.addresses.specs.Addresses.{value_of, wide_at, low32, same_address};
ghost use Rattle.addresses.specs.Prefixes.{prefix_agrees};

use numbers::read64;

// The bits of an address of either kind: an IPv6 address fills both words, an IPv4 address the lower half of the low one.
#[derive(Clone, Copy, PartialEq, Eq)]
pub struct Wide {
    pub high: u64,
    pub low: u64,
}

// An address is its bits and its kind.
#[derive(Clone, Copy, PartialEq, Eq)]
pub struct Address {
    pub ipv6: bool,
    pub bits: Wide,
}

// The 16 bytes of an IPv6 address.
pub fn read128(s: &[u8], at: usize) -> Wide
    requires { at + 16 ≤ length s.now }
    ensures { result ≡ wide_at s.now at }
{
    Wide {
        high: read64(s, at),
        low: read64(s, at + 8),
    }
}

// The bits of an IPv4 address.
impl From<u32> for Wide {
    ghost from_gives = { λ x w. w ≡ low32 x };

    fn from(x: u32) -> Wide {
        Wide {
            high: 0,
            low: u64::from(x),
        }
    }
}

// Kind and all bits: an IPv4 address never equals an IPv6 one. A function round `==`, since the paper's sentence is its promise.
#[tactic(auto, unfolding(crate::specs::Addresses::same_address))]
pub fn same_address(a: Address, b: Address) -> bool
    ensures { result ≡ same_address a b }
{
    a == b
}

// The bits of an address of one kind: of what width they are, what number they are, and whether the first n of two are the same.
pub trait Bits: Copy {
    ghost width: { ℕ };

    ghost number: { Self → ℕ };

    fn prefix_agrees(n: u8, a: Self, b: Self) -> bool
        ensures { result ≡ prefix_agrees width n (number a) (number b) };
}

impl Bits for u32 {
    ghost width = { 32 };

    ghost number = { λ a. a };

    fn prefix_agrees(n: u8, a: u32, b: u32) -> bool {
        word_agrees(32, n, u64::from(a), u64::from(b))
    }
}

impl Bits for Wide {
    ghost width = { 128 };

    ghost number = { value_of };

    fn prefix_agrees(n: u8, a: Wide, b: Wide) -> bool {
        words_agree(n, a.high, a.low, b.high, b.low)
    }
}

// Over two words: a prefix ends in the upper one, or the upper ones are the same and it ends in the lower.
// They are handed one by one: of the fields of a struct by value a proof is not told that they fit.
#[tactic(auto, using(crate::proofs::Prefixes::words_upper, crate::proofs::Prefixes::words_lower))]
fn words_agree(n: u8, high: u64, low: u64, upper: u64, lower: u64) -> bool
    ensures { result ≡ prefix_agrees 128 n (high * 2 ^ 64 + low) (upper * 2 ^ 64 + lower) }
{
    if n <= 64 {
        return word_agrees(64, n, high, upper);
    }
    high == upper && word_agrees(64, n - 64, low, lower)
}

// Of the first n of w bits: the others are shifted out, and a shift by a whole word or more is left out.
#[tactic(auto, using(crate::proofs::Prefixes::word_out), unfolding(crate::specs::Prefixes::prefix_agrees))]
fn word_agrees(w: u8, n: u8, a: u64, b: u64) -> bool
    ensures { result ≡ prefix_agrees w n a b }
{
    let k = w.saturating_sub(n);
    64 <= k || (a >> k) == (b >> k)
}
