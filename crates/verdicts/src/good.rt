// Is the record of one rule good?
ghost use Rattle.std.specs.Prelude.{◌≡◌, []};
ghost use Rattle.table.specs.Words.{rule_in};
ghost use Rattle.verdicts.specs.Record.{rule_of};
ghost use Rattle.verdicts.specs.Good.{level_good, levels_good, record_good};

use crate::*;
use goodness::{good_empty, good_room};
use places::RulePlaces;
use table::Rate;
use table::words::{RuleWords, bucket, tracking};

fn good_level(b: Option<Rate>, level: u32) -> bool
    ensures { result ≡ level_good b level }
{
    match b {
        None => level == 0,
        Some(_) => level <= LEVEL_MOST,
    }
}

// Both sockets' levels.
pub fn good_levels(b: Option<Rate>, c: &CountWords) -> bool
    ensures { result ≡ levels_good b (rule_of c.now []) }
{
    good_level(b, c[LEVEL0]) && good_level(b, c[LEVEL1])
}

#[tactic(auto, using(crate::proofs::GoodCode::rule_yes, crate::proofs::GoodCode::rule_no))]
pub fn good_rule(r: &RuleWords, c: &CountWords, ps: &RulePlaces) -> bool
    ensures { result ≡ record_good (rule_in r.now) (rule_of c.now ps.now) }
{
    if !good_levels(bucket(r), c) {
        return false;
    }
    match tracking(r) {
        None => good_empty(ps),
        Some(m) => good_room(m, ps),
    }
}
