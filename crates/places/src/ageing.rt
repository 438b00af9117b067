// Time passes over the places of one rule.
ghost use Rattle.std.specs.Prelude.{◌≡◌, map};
ghost use Rattle.places.specs.Places.{place_of, places_of};
ghost use Rattle.places.specs.Ageing.{aged_place};

use crate::*;

// A free place is skipped. The age stands on top of its word, so that the sum does not touch what stands below.
#[tactic(auto, using(crate::proofs::AgeingLaws::place_free, crate::proofs::AgeingLaws::place_older, crate::proofs::AgeingLaws::place_old))]
fn age_place(limit: u32, elapsed: u64, p: &mut PlaceWords)
    ensures { place_of p.new ≡ aged_place limit elapsed (place_of p.old) }
{
    let w = p[HELD];
    if w % KIND_BIT == 0 {
        return;
    }
    let most = u64::from(limit);
    if elapsed < most && w / AGE_BIT < most - elapsed {
        p[HELD] = w + AGE_BIT * elapsed;
    } else {
        *p = [0; PLACE_WORDS];
    }
}

pub fn age_places(limit: u32, elapsed: u64, ps: &mut RulePlaces)
    ensures { places_of ps.new ≡ map (aged_place limit elapsed) (places_of ps.old) }
{
    for p in ps.iter_mut() {
        age_place(limit, elapsed, p);
    }
}
