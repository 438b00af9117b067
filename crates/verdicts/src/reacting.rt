// Steps 3 to 5 of one decider, a rule or the default.
ghost use Rattle.std.specs.Prelude.{◌≡◌, [], ◌≤◌};
ghost use Rattle.table.specs.Table.{bucket_of, tracking_of, most_places};
ghost use Rattle.table.specs.Words.{rule_in};
ghost use Rattle.places.specs.Places.{places_of};
ghost use Rattle.places.specs.Good.{places_in};
ghost use Rattle.verdicts.specs.Record.{rule_of};
ghost use Rattle.verdicts.specs.Rule.{decided, reacted, decided_as, reacted_as, default_verdict, defaulted};
ghost use Rattle.verdicts.specs.Verdict.{verdict_number};

use crate::rate::*;
use crate::verdict::Verdict;
use crate::*;
use conversations::Turn;
use conversations::track::track;
use places::RulePlaces;
use table::settings::is_allow;
use table::words::{RuleWords, bucket, rule_action, tracking};
use table::{Action, Rate};

// Step 4, at the level raised.
#[tactic(auto, unfolding(crate::specs::Rule::decided))]
fn decide(r: &RuleWords, b: Option<Rate>, g: Turn, level: u32, ps: &mut RulePlaces) -> Verdict
    requires bucket { b ≡ bucket_of (rule_in r.now) }
    requires room { places_in (tracking_of (rule_in r.now)) ≤ most_places }
    ensures { decided_as (verdict_number result) ps.new
        ≡ decided (rule_in r.now) g level (places_of ps.old) }
{
    if !is_allow(rule_action(r)) {
        return Verdict::BlockedByRule;
    }
    if is_over(b, level) {
        return Verdict::OverRate;
    }
    match tracking(r) {
        None => Verdict::Allowed,
        Some(m) => track(m, g, ps).into(),
    }
}

// Steps 3 to 5 of a rule that decides.
#[tactic(auto, using(crate::proofs::ReactLaws::react_is))]
pub fn react(r: &RuleWords, g: Turn, c: &mut CountWords, ps: &mut RulePlaces) -> Verdict
    requires { places_in (tracking_of (rule_in r.now)) ≤ most_places }
    ensures { reacted_as (verdict_number result) c.new ps.new
        ≡ reacted (rule_in r.now) g (rule_of c.old ps.old) }
{
    let b = bucket(r);
    let level = raise_level(b, g.quad.second, c);
    let v = decide(r, b, g, level, ps);
    settle(v, c);
    v
}

// Steps 4 and 5 of the default.
pub fn fall_back(a: Action, c: &mut CountWords) -> Verdict
    ensures { reacted_as (verdict_number result) c.new [] ≡ defaulted a (rule_of c.old []) }
{
    let v = default_verdict(a);
    settle(v, c);
    v
}

fn default_verdict(a: Action) -> Verdict
    ensures { verdict_number result ≡ default_verdict a }
{
    if is_allow(a) {
        Verdict::AllowedByDefault
    } else {
        Verdict::BlockedByDefault
    }
}
