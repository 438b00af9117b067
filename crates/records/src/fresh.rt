// Fresh records, and a switch of vehicle state.
ghost use Rattle.std.specs.Prelude.{◌≡◌, set};
ghost use Rattle.records.specs.Records.{active_word, records_of, lent};
ghost use Rattle.records.specs.Step.{fresh_of};

use crate::*;
use places::PLACE_WORDS;
use table::{PLACES, RULES};
use verdicts::COUNT_WORDS;

impl<C, P> Words<C, P> {
    pub fn new(head: Head, counts: C, places: P) -> Words<C, P>
        ensures { result ≡ record { head = head; counts = counts; places = places } }
    {
        Words {
            head,
            counts,
            places,
        }
    }
}

// Of the head alone: it is all that a switch changes.
pub fn switch_to(state: u64, head: &mut Head)
    ensures { head.new ≡ set head.old active_word state }
{
    head[ACTIVE] = state;
}

impl RecordWords {
    #[tactic(auto, unfolding(crate::specs::Records::records_of, crate::specs::Step::fresh_of))]
    pub fn fresh(reading: u64) -> RecordWords
        ensures { records_of result ≡ fresh_of reading }
    {
        Words::new(
            [reading, 0],
            [[0; COUNT_WORDS]; COUNT_ROWS],
            [[[0; PLACE_WORDS]; PLACES]; RULES],
        )
    }

    // The counts and the places stay, and the last reading.
    pub fn switch_to(&mut self, state: u64)
        ensures { self.new ≡ lent (set self.old.head active_word state) self.old.counts self.old.places }
    {
        switch_to(state, &mut self.head);
    }
}
