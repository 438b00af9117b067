// The places of one rule as a lent slice of at most eight conversation structs, scanned for a quadruple and for the first free place.
ghost use Rattle.std.specs.Prelude.{◌≡◌, map};
ghost use Rattle.places.specs.Places.{place_of, places_of};
ghost use Rattle.table.specs.Table.{most_places};
ghost use Rattle.conversations.specs.Tracking.{held_at, free_at};
ghost use Rattle.conversations.specs.Scan.{shown, seen_by, scan_of};

use places::place::{quad, same_quad, state};
use places::{PLACE_WORDS, PlaceWords, Quad, RulePlaces};
use table::PLACES;

// What the scan looks at in a place, free or held.
#[derive(Clone, Copy)]
pub struct Conversation {
    pub state: u64,
    pub quad: Quad,
}

// The first place that holds the quadruple and the first free place. The number of places, and no Option, says that there is none: the definitions held_at and free_at have it so.
#[derive(Clone, Copy)]
pub struct Found {
    pub held: usize,
    pub free: usize,
}

// ---- the loader

fn read_place(w: &PlaceWords) -> Conversation
    ensures { result ≡ shown (place_of w.now) }
{
    Conversation {
        state: state(w),
        quad: quad(w),
    }
}

pub(crate) fn load(row: &RulePlaces) -> [Conversation; PLACES]
    ensures { result ≡ map shown (places_of row.now) }
{
    let mut places = [read_place(&[0; PLACE_WORDS]); PLACES];
    for (i, w) in row.iter().enumerate() {
        places[i] = read_place(w);
    }
    places
}

// ---- the scan

// One place is seen, at i, after what was found before it.
#[tactic(auto, unfolding(crate::specs::Scan::seen_by))]
pub(crate) fn seen(c: Conversation, q: Quad, found: Found, i: usize) -> Found
    ensures { result ≡ seen_by q c i found }
{
    let vacant = c.state == 0;
    let same = !vacant && same_quad(q, c.quad);
    let held = if same && i < found.held {
        i
    } else {
        found.held
    };
    let free = if vacant && i < found.free {
        i
    } else {
        found.free
    };
    Found { held, free }
}

// The walk: the places in their order, each seen once.
#[tactic(auto, unfolding(crate::specs::Scan::scan_of))]
pub(crate) fn scan(places: &[Conversation], q: Quad) -> Found
    ensures { result ≡ scan_of q places.now }
{
    let n = places.len();
    let mut found = Found { held: n, free: n };
    for (i, c) in places.iter().enumerate() {
        found = seen(*c, q, found, i);
    }
    found
}

// Lends its own array, so that callers hand the places by value and need no walk.
pub(crate) fn scan_in(places: [Conversation; PLACES], q: Quad) -> Found
    ensures { result ≡ scan_of q places }
{
    scan(&places, q)
}

#[tactic(auto, using(crate::proofs::ScanLaws::scan_held, crate::proofs::ScanLaws::scan_free))]
pub(crate) fn find(q: Quad, row: &RulePlaces) -> Found
    ensures held { result.held ≡ held_at q (places_of row.now) }
    ensures free { result.free ≡ free_at (places_of row.now) most_places }
{
    scan_in(load(row), q)
}
