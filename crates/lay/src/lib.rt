// A rule, a state, a table laid into the words that are lent: into the very words of Layout, which read back as what was laid.
#![tactic(auto)]

ghost use Rattle.std.specs.Prelude.{◌≡◌, map, take, drop};
ghost use Rattle.table.specs.Table.{most_rules};
ghost use Rattle.table.specs.Words.{state_row, rule_in, state_in, table_in};
ghost use Rattle.lay.specs.Layout.{LaidAs, rule_words, state_words, count_words, table_words};

use fields::{
    action_code, address_word, address6, ip_word, link_word, port_word, rate_word, rule_word,
    someip_word, tracking_word, transport_word,
};
use table::words::*;
use table::*;

fn rule(r: Rule) -> RuleWords
    ensures { LaidAs rule_words rule_in r result }
{
    let from = address6(r.ipv6.source);
    let to = address6(r.ipv6.destination);
    let mut w = [0; ROW_WORDS];
    w[RULE] = rule_word(r);
    w[LINK] = link_word(r.link);
    w[DESTINATION_MAC] = r.link.destination.value_or(0);
    w[SOURCE_MAC] = r.link.source.value_or(0);
    w[IP] = ip_word(r.ipv4, r.ipv6);
    w[ADDRESSES] = address_word(r.ipv4);
    w[SOURCE6] = from.high;
    w[SOURCE6 + 1] = from.low;
    w[DESTINATION6] = to.high;
    w[DESTINATION6 + 1] = to.low;
    w[TRANSPORT] = transport_word(r.transport);
    w[PORTS] = port_word(r.transport);
    w[SOMEIP] = someip_word(r.someip);
    w[RATE] = rate_word(r.rate);
    w[TRACKING] = tracking_word(r.tracking);
    w
}

#[tactic(auto, unfolding(crate::specs::Layout::state_words), using(fields::proofs::Packing::action_read))]
fn state(s: State) -> RuleWords
    ensures { LaidAs state_words state_in s result }
{
    let mut row = [0; ROW_WORDS];
    row[DEFAULT_ACTION] = action_code(s.default);
    row[MARKS] = s.marks;
    row
}

#[tactic(auto, unfolding(crate::specs::Layout::count_words))]
fn counts(rules: usize, states: usize) -> RuleWords
    ensures { result ≡ count_words rules states }
{
    let mut w = [0; ROW_WORDS];
    w[RULE_COUNT] = rules as u64;
    w[STATE_COUNT] = states as u64;
    w
}

// The rows of the rules, which are the first of a table's.
fn rules(rules: &[Rule; RULES], w: &mut TableWords)
    ensures { LaidAs (map rule_words) (map rule_in) rules.now (take most_rules w.new) }
{
    for (i, r) in rules.iter().enumerate() {
        w[i] = rule(*r);
    }
}

// The rows of the states, which are the last; those before them stay.
fn states(states: &[State; STATES], w: &mut TableWords)
    ensures laid { LaidAs (map state_words) (map state_in) states.now (drop state_row w.new) }
    ensures before { take most_rules w.new ≡ take most_rules w.old }
{
    for (k, s) in states.iter().enumerate() {
        w[STATE + k] = state(*s);
    }
}

pub fn table(t: Table, w: &mut TableWords)
    ensures { LaidAs table_words table_in t w.new }
{
    rules(&t.rules, w);
    states(&t.states, w);
    w[COUNTS] = counts(t.rulecount, t.statecount);
}
