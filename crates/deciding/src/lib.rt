// Who decides, and who fits best.
#![tactic(auto)]

ghost use Rattle.std.specs.Prelude.{◌≡◌, cond, suc, ◌<◌, ◌≤◌};
ghost use Rattle.numbers.specs.Lists.{leading};
ghost use Rattle.table.specs.Table.{most_rules, most_states, marked as marked_at};
ghost use Rattle.table.specs.Words.{rule_in, table_in};
ghost use Rattle.layers.specs.Seen.{seen_in};
ghost use Rattle.matching.specs.Matching.{layer_tests};
ghost use Rattle.deciding.specs.Best.{best_of, decision_of};

use layers::Seen;
use matching::rules::layers_matched;
use table::RULES;
use table::settings::*;
use table::words::*;

// The place of the rule that fits best, 64 for none, and its first layer that does not match: 0 link, 1 IP, 2 transport, 3 SOME/IP.
#[derive(Clone, Copy)]
pub struct Best {
    pub place: usize,
    pub layer: usize,
}

// The place of the rule that decides, 64 for the default, and the best fit.
#[derive(Clone, Copy)]
pub struct Decision {
    pub decider: usize,
    pub best: Best,
}

// Places and layers are numbers, as the paper has them: 64 is the row of the default's counts, and a layer is how many match before it.

// How many layers a rule has, and the score of one that matches in all.
const LAYERS: usize = 4;

const WHOLE: usize = LAYERS + 1;

// One more than the layers matched of an active rule, and 0, no Option, for one that is not active: the definition score_of has it so.
fn score(r: &RuleWords, marks: u64, i: usize, x: &Seen) -> usize
    requires { i < most_rules }
    ensures { result ≡ cond (marked_at marks i) (suc (leading (layer_tests (rule_in r.now) (seen_in x.now)))) 0 }
{
    if !marked(marks, i) {
        return 0;
    }
    layers_matched(r, x) + 1
}

// The first of the active rules with the greatest score. None is above that of a rule that matches, so none behind one is looked at.
// What is asked of table and state are two bounds and no type of a good table: a table at fault is decided too, as long as its rules are at most 64.
fn best_fit(t: &TableWords, state: usize, x: &Seen) -> Best
    requires state { state < most_states }
    requires rules { (table_in t.now).rulecount ≤ most_rules }
    ensures { result ≡ best_of (table_in t.now) state (seen_in x.now) }
{
    let marks = marks_of(t, state);
    let mut place = RULES;
    let mut most = 0;
    for i in 0..rulecount(t) {
        let n = score(&t[i], marks, i, x);
        if most < n {
            place = i;
            most = n;
        }
        if WHOLE <= most {
            break;
        }
    }
    if most == 0 {
        return Best {
            place: RULES,
            layer: 0,
        };
    }
    Best {
        place,
        layer: most - 1,
    }
}

// Who decides is told by the best fit, so that one walk finds both: it decides where all four layers match.
pub fn decide(t: &TableWords, state: usize, x: &Seen) -> Decision
    requires state { state < most_states }
    requires rules { (table_in t.now).rulecount ≤ most_rules }
    ensures { result ≡ decision_of (table_in t.now) state (seen_in x.now) }
{
    let best = best_fit(t, state, x);
    let decider = if best.layer == LAYERS {
        best.place
    } else {
        RULES
    };
    Decision { decider, best }
}
