// Time passes over the record of one rule: its levels fall, its conversations grow older.
ghost use Rattle.std.specs.Prelude.{◌≡◌, ◌-◌, ◌*◌};
ghost use Rattle.table.specs.Words.{rule_in};
ghost use Rattle.verdicts.specs.Record.{rule_of};
ghost use Rattle.verdicts.specs.Rule.{drained_row, aged};

use crate::*;
use places::RulePlaces;
use places::ageing::age_places;
use table::Rate;
use table::words::{RuleWords, bucket, tracking};

// What is left of a level. A product that stops at 64 bits is above every level.
fn drain(refill: u16, elapsed: u64, level: u32) -> u32
    ensures { result ≡ level - refill * elapsed }
{
    let fall = u64::from(refill).saturating_mul(elapsed);
    u64::from(level).saturating_sub(fall) as u32
}

// Both sockets' levels fall.
fn age_levels(b: Option<Rate>, elapsed: u64, c: &mut CountWords)
    ensures { c.new ≡ drained_row b elapsed c.old }
{
    if let Some(rate) = b {
        c[LEVEL0] = drain(rate.refill, elapsed, c[LEVEL0]);
        c[LEVEL1] = drain(rate.refill, elapsed, c[LEVEL1]);
    }
}

// A rule, its counts and its places are handed apart, here and below: they lie in three arrays, and a struct of what is lent would be made anew for each call.
// Time passes over one rule. Without bucket and tracking it is skipped.
#[tactic(auto, using(crate::proofs::AgeLaws::rule_aged))]
pub fn age_rule(r: &RuleWords, elapsed: u64, c: &mut CountWords, ps: &mut RulePlaces)
    ensures { rule_of c.new ps.new
        ≡ aged elapsed (rule_in r.now) (rule_of c.old ps.old) }
{
    age_levels(bucket(r), elapsed, c);
    if let Some(m) = tracking(r) {
        age_places(m.limit, elapsed, ps);
    }
}
