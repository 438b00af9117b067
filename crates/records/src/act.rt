// Steps 3 to 5 of the decider, a rule or the default.
ghost use Rattle.std.specs.Prelude.{◌≡◌, get_or};
ghost use Rattle.table.specs.Words.{table_in};
ghost use Rattle.records.specs.Records.{active_word, records_of, lent};
ghost use Rattle.records.specs.Step.{reaction, acted, MayAct};
ghost use Rattle.verdicts.specs.Verdict.{verdict_number};

use crate::*;
use conversations::Turn;
use table::words::{TableWords, default_of};
use verdicts::reacting::{fall_back, react};
use verdicts::verdict::Verdict;

// Steps 3 to 5 of the decider at d. The head is only read: a & of it is enough.
pub fn act(
    t: &TableWords,
    g: Turn,
    d: usize,
    head: &Head,
    counts: &mut Counts,
    places: &mut Places,
) -> Verdict
    requires { MayAct (table_in t.now) (get_or head.now active_word 0) d }
    ensures verdict { verdict_number result ≡ (reaction (table_in t.now) g d (records_of (lent head.now counts.old places.old))).verdict }
    ensures records { records_of (lent head.now counts.new places.new)
        ≡ acted (table_in t.now) g d (records_of (lent head.now counts.old places.old)) }
{
    if d < DEFAULT {
        react(&t[d], g, &mut counts[d], &mut places[d])
    } else {
        let a = default_of(t, head[ACTIVE] as usize);
        fall_back(a, &mut counts[DEFAULT])
    }
}

impl RecordWords {
    // The same of all words.
    pub fn act(&mut self, t: &TableWords, g: Turn, d: usize) -> Verdict
        requires { MayAct (table_in t.now) (get_or self.old.head active_word 0) d }
        ensures verdict { verdict_number result ≡ (reaction (table_in t.now) g d (records_of self.old)).verdict }
        ensures records { records_of self.new ≡ acted (table_in t.now) g d (records_of self.old) }
    {
        act(t, g, d, &self.head, &mut self.counts, &mut self.places)
    }
}
