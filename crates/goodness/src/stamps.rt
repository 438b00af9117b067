// A stamp for each place of a rule, by which most conversations are told apart at once.
ghost use Rattle.std.specs.Prelude.{◌≡◌, ◌<◌};
ghost use Rattle.places.specs.Places.{place_of, places_of};
ghost use Rattle.table.specs.Table.{most_places};
ghost use Rattle.goodness.specs.Stamps.{stamp_of, place_stamp, Stamped, new_at, distinct};

use places::*;
use table::PLACES;

pub(crate) type Stamps = [u64; PLACES];

// Of the destination's low word 48 bits go in 16 bits up, and those above them below.
const KEPT: u64 = 281474976710656;

const LIFT: u64 = 65536;

// All bits go in but kind and socket: a quadruple on both sockets has one stamp and is compared in full. Of a socket's IPv4 conversations with one destination no two have one; who chooses IPv6 addresses can choose such, which costs time and no answer.
#[tactic(auto, unfolding(crate::specs::Stamps::stamp_of))]
fn stamp(p: &PlaceWords) -> u64
    ensures { result ≡ stamp_of (place_of p.now).quad }
{
    let source = p[SOURCE] % HALF * HALF;
    let destination = p[DESTINATION] % KEPT * LIFT;
    let above = p[SOURCE_HIGH] ^ (p[SOURCE] / HALF) ^ p[DESTINATION_HIGH] ^ (p[DESTINATION] / KEPT);
    source ^ destination ^ above ^ (p[BOTH_PORTS] / HALF)
}

// A free place has its number, so that free places are not alike.
fn stamp_at(j: usize, p: &PlaceWords) -> u64
    ensures { result ≡ place_stamp j (place_of p.now) }
{
    if p[HELD] % KIND_BIT == 0 {
        j as u64
    } else {
        stamp(p)
    }
}

pub(crate) fn stamps(ps: &RulePlaces) -> Stamps
    ensures { Stamped (places_of ps.now) result }
{
    let mut m = [0; PLACES];
    for (j, p) in ps.iter().enumerate() {
        m[j] = stamp_at(j, p);
    }
    m
}

// No earlier stamp is that at j. No `contains`: with it a rule whose places are held costs some 150 instructions more (docs/PERFORMANCE.md).
#[tactic(auto, using(numbers::proofs::Lists::below_none, numbers::proofs::Lists::below_next))]
fn is_new(j: usize, m: &Stamps) -> bool
    requires { j < most_places }
    ensures { result ≡ new_at m.now j }
{
    for i in 0..j {
        if m[i] == m[j] {
            return false;
        }
    }
    true
}

// No two are alike.
#[tactic(auto, using(numbers::proofs::Lists::below_none, numbers::proofs::Lists::below_next))]
pub(crate) fn are_distinct(m: &Stamps) -> bool
    ensures { result ≡ distinct m.now }
{
    for j in 0..PLACES {
        if !is_new(j, m) {
            return false;
        }
    }
    true
}
