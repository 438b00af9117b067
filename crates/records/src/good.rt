// Are the records good?
ghost use Rattle.std.specs.Prelude.{◌≡◌, ◌≤◌};
ghost use Rattle.numbers.specs.Lists.{all_below};
ghost use Rattle.table.specs.Table.{most_rules};
ghost use Rattle.table.specs.Words.{table_in};
ghost use Rattle.records.specs.Records.{rule_records, records_of, lent};
ghost use Rattle.records.specs.Good.{level_from, slots_good, rules_good, records_good};

use crate::*;
use goodness::good_beyond;
use table::RULES;
use table::words::{TableWords, rulecount, statecount};
use verdicts::good::{good_levels, good_rule};
use verdicts::{LEVEL0, LEVEL1};

// No slot from one on has a level: it has no rule, and so no bucket. All levels in one number, which is faster than a test of each.
fn no_levels(from: usize, counts: &Counts) -> bool
    requires { from ≤ most_rules }
    ensures { result ≡ all_below (level_from from counts.now) most_rules }
{
    let mut any = 0;
    // By the index, of which the definition level_from speaks.
    for i in from..RULES {
        any |= counts[i][LEVEL0] | counts[i][LEVEL1];
    }
    any == 0
}

// The slots that have no rule, all together.
fn is_empty_from(from: usize, counts: &Counts, places: &Places) -> bool
    requires { from ≤ most_rules }
    ensures { result ≡ slots_good from counts.now places.now }
{
    no_levels(from, counts) && good_beyond(from, places)
}

fn has_good_rules(t: &TableWords, counts: &Counts, places: &Places) -> bool
    ensures { result ≡ rules_good (table_in t.now) (rule_records counts.now places.now) }
{
    let n = rulecount(t).min(RULES);
    // By the index, which is one of three arrays.
    for i in 0..n {
        if !good_rule(&t[i], &counts[i], &places[i]) {
            return false;
        }
    }
    is_empty_from(n, counts, places)
}

// For a caller who has the three parts, and no struct of them.
pub fn good(t: &TableWords, head: &Head, counts: &Counts, places: &Places) -> bool
    ensures { result ≡ records_good (table_in t.now) (records_of (lent head.now counts.now places.now)) }
{
    let states = statecount(t) as u64;
    head[ACTIVE] < states
        && has_good_rules(t, counts, places)
        && good_levels(None, &counts[DEFAULT])
}

impl RecordWords {
    pub fn is_good(&self, t: &TableWords) -> bool
        ensures { result ≡ records_good (table_in t.now) (records_of self.now) }
    {
        good(t, &self.head, &self.counts, &self.places)
    }
}
