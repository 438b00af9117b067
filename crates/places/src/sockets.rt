// How many of a rule's places a socket holds.
ghost use Rattle.std.specs.Prelude.{◌≡◌};
ghost use Rattle.places.specs.Places.{places_of, held_by, held_of};

use crate::place::is_of;
use crate::*;

// How many places each socket holds.
#[derive(Clone, Copy)]
pub struct PerSocket {
    pub first: u8,
    pub second: u8,
}

// All places are looked at: a loop of fixed length is done several places at a time.
#[tactic(auto, using(numbers::proofs::Lists::count_none, numbers::proofs::Lists::count_le, numbers::proofs::Lists::count_next, crate::proofs::HoldLaws::held_all))]
pub fn held(ps: &RulePlaces) -> PerSocket
    ensures { result ≡ held_of (places_of ps.now) }
{
    let mut first = 0;
    let mut second = 0;
    for p in ps {
        first += u8::from(is_of(false, p));
        second += u8::from(is_of(true, p));
    }
    PerSocket { first, second }
}

pub fn held_by(second: bool, ps: &RulePlaces) -> u8
    ensures { result ≡ held_by second (places_of ps.now) }
{
    let h = held(ps);
    if second { h.second } else { h.first }
}
