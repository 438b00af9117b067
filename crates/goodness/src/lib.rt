// Are the places of one rule good?
#![tactic(auto)]

ghost use Rattle.std.specs.Prelude.{◌≡◌, Bool, ◌<◌, ◌≤◌, eqb};
ghost use Rattle.numbers.specs.Lists.{every, all_below};
ghost use Rattle.table.specs.Table.{most_rules, most_places};
ghost use Rattle.places.specs.Places.{place_of, places_of, held_by};
ghost use Rattle.places.specs.Good.{is_fresh, is_plain, place_good, each_good, alone, once, number_tests, places_tests, is_empty, empty_from};

mod stamps;

use places::place::{is_held_by, quad};
use places::sockets::held;
use places::*;
use stamps::{are_distinct, stamps};
use table::{PLACES, Room};

// All words in one: zero where the place is as in a fresh record, and only there.
#[tactic(auto, using(crate::proofs::GoodCode::filled_words))]
fn filled(p: &PlaceWords) -> u64
    ensures { eqb result 0 ≡ is_fresh (place_of p.now) }
{
    p[HELD] | p[BOTH_PORTS] | p[SOURCE_HIGH] | p[SOURCE] | p[DESTINATION_HIGH] | p[DESTINATION]
}

// Nothing that has no meaning yet, and IPv4 addresses of 32 bits.
#[tactic(auto, using(crate::proofs::GoodCode::plain_ipv4))]
fn is_plain(p: &PlaceWords) -> bool
    ensures { result ≡ is_plain (place_of p.now) }
{
    if p[BOTH_PORTS] % HALF != 0 {
        return false;
    }
    if p[HELD] / KIND_BIT % 2 == 1 {
        return true;
    }
    let high = p[SOURCE_HIGH] | p[DESTINATION_HIGH];
    let low = p[SOURCE] / HALF | p[DESTINATION] / HALF;
    (high | low) == 0
}

// A place that the rule has (`is`) or has not.
fn good_place(is: bool, limit: u32, p: &PlaceWords) -> bool
    ensures { result ≡ place_good is limit (place_of p.now) }
{
    let w = p[HELD];
    if w % KIND_BIT == 0 {
        return filled(p) == 0;
    }
    is && w / AGE_BIT < u64::from(limit) && is_plain(p)
}

// No earlier place holds the conversation of the place at j.
#[tactic(auto, using(numbers::proofs::Lists::below_none, numbers::proofs::Lists::below_next, crate::proofs::GoodCode::repeats_free))]
fn is_alone(j: usize, ps: &RulePlaces) -> bool
    requires { j < most_places }
    ensures { result ≡ alone (places_of ps.now) j }
{
    if ps[j][HELD] % KIND_BIT == 0 {
        return true;
    }
    let q = quad(&ps[j]);
    // A for that ends early and no `any` or `all`, here and below: of those the proof did not close.
    for p in &ps[..j] {
        if is_held_by(q, p) {
            return false;
        }
    }
    true
}

// All words of the places of a rule in one: zero where they are as in a fresh record, and only there.
#[tactic(auto, using(numbers::proofs::Lists::below_none))]
fn filled_rule(ps: &RulePlaces) -> u64
    ensures { eqb result 0 ≡ is_empty ps.now }
{
    let mut any = 0;
    for p in ps {
        any |= filled(p);
    }
    any
}

// The places of a rule without tracking.
pub fn good_empty(ps: &RulePlaces) -> bool
    ensures { result ≡ is_empty ps.now }
{
    filled_rule(ps) == 0
}

// The places of all slots from one on, which have no rule: one straight walk over their words. From where is a clause here and in `records`, and no type: 64 is a count and no slot.
pub fn good_beyond(from: usize, all: &AllPlaces) -> bool
    requires { from ≤ most_rules }
    ensures { result ≡ all_below (empty_from from all.now) most_rules }
{
    let mut any = 0;
    for ps in &all[from..] {
        any |= filled_rule(ps);
    }
    any == 0
}

// Each place by itself.
#[tactic(auto, using(numbers::proofs::Lists::below_none, numbers::proofs::Lists::below_next, crate::proofs::GoodCode::each_turn))]
fn good_each(m: Room, ps: &RulePlaces) -> bool
    ensures { result ≡ each_good m.places m.limit (places_of ps.now) }
{
    let n = usize::from(m.places);
    for (j, p) in ps.iter().enumerate() {
        if !good_place(j < n, m.limit, p) {
            return false;
        }
    }
    true
}

// No socket holds more than its number. Where each may hold every place none can, and nothing is counted.
fn good_numbers(m: Room, ps: &RulePlaces) -> bool
    requires { (k : Bool) → held_by k (places_of ps.now) ≤ m.places }
    ensures { result ≡ every (number_tests m (places_of ps.now)) }
{
    if m.places <= m.number0 && m.places <= m.number1 {
        return true;
    }
    let h = held(ps);
    h.first <= m.number0 && h.second <= m.number1
}

// Conversations are compared only where two stamps are alike.
#[tactic(auto, using(numbers::proofs::Lists::below_none, numbers::proofs::Lists::below_next))]
fn are_alone(ps: &RulePlaces) -> bool
    ensures { result ≡ once (places_of ps.now) }
{
    if are_distinct(&stamps(ps)) {
        return true;
    }
    for j in 0..PLACES {
        if !is_alone(j, ps) {
            return false;
        }
    }
    true
}

// The places of a rule that tracks. Where the first is free all may be, which one look tells.
pub fn good_room(m: Room, ps: &RulePlaces) -> bool
    ensures { result ≡ every (places_tests m (places_of ps.now)) }
{
    if ps[0][HELD] == 0 && good_empty(ps) {
        return true;
    }
    if !good_each(m, ps) {
        return false;
    }
    are_alone(ps) && good_numbers(m, ps)
}
