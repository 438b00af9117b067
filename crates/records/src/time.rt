// Time passes: elapsed, levels that fall, ages that rise.
ghost use Rattle.std.specs.Prelude.{◌≡◌, ◌-◌, ◌≤◌};
ghost use Rattle.numbers.specs.Lists.{each};
ghost use Rattle.table.specs.Table.{rules_of as table_rules, most_rules};
ghost use Rattle.table.specs.Words.{table_in};
ghost use Rattle.records.specs.Records.{rule_records, records_of};
ghost use Rattle.verdicts.specs.Rule.{aged};
ghost use Rattle.records.specs.Step.{ticked};
ghost use Rattle.records.specs.Good.{MayTick};

use crate::*;
use table::words::{TableWords, rulecount};
use verdicts::ageing::age_rule;

// A clock that stands or went back has let no time pass.
fn elapsed_of(reading: u64, last: u64) -> u64
    ensures { result ≡ reading - last }
{
    reading.saturating_sub(last)
}

impl RecordWords {
    fn age_rules(&mut self, t: &TableWords, elapsed: u64)
        requires { (table_in t.now).rulecount ≤ most_rules }
        ensures head { self.new.head ≡ self.old.head }
        ensures rules { rule_records self.new.counts self.new.places
            ≡ each (aged elapsed) (table_rules (table_in t.now)) (rule_records self.old.counts self.old.places) }
    {
        for i in 0..rulecount(t) {
            age_rule(&t[i], elapsed, &mut self.counts[i], &mut self.places[i]);
        }
    }

    // Steps 1 and 2. Where no time has passed, good records stay as they are.
    pub fn tick(&mut self, t: &TableWords, reading: u64)
        requires { MayTick (table_in t.now) (records_of self.old) }
        ensures { records_of self.new ≡ ticked (table_in t.now) reading (records_of self.old) }
    {
        let elapsed = elapsed_of(reading, self.head[LAST]);
        self.head[LAST] = reading;
        if elapsed == 0 {
            return;
        }
        self.age_rules(t, elapsed);
    }
}
