// Is the table good, and if not, where is its first fault?
#![tactic(auto)]

ghost use Rattle.std.specs.Prelude.{◌≡◌, not, ◌<◌, ◌≤◌, get_or, eqb};
ghost use Rattle.numbers.specs.Lists.{all_below, count_below};
ghost use Rattle.table.specs.Table.{most_rules, most_states};
ghost use Rattle.table.specs.Words.{table_in};
ghost use Rattle.faults.specs.Faults.{marks_good, state_good, states_good, Listed, fault_of};

use ranges::rule_fault;
use ranges::setting_number::SettingNumber;
use ranges::within::action_good;
use table::words::*;
use table::*;

// Where the first fault stands: in a rule, at its place and by its setting, or in the states or the rule count.
#[derive(Clone, Copy)]
pub enum AtFault {
    Rule {
        place: usize,
        setting: SettingNumber,
    },
    StatesOrRuleCount,
}

// The id of no good rule: it stands behind the last.
const NO_ID: u16 = 65535;

// The ids of the rules, in table order: of a fixed number, since nothing here may fail for memory (definition Listed).
fn ids_of(t: &TableWords, count: usize) -> [u16; RULES]
    requires { count ≤ most_rules }
    ensures { Listed (table_in t.now) result count }
{
    let mut ids = [NO_ID; RULES];
    for i in 0..count {
        ids[i] = id(&t[i]);
    }
    ids
}

// At how many places this id stands. All are compared: a loop of fixed length is done many places at a time.
fn times(ids: &[u16; RULES], id: u16) -> u16
    ensures { result ≡ count_below (λ j. eqb (get_or ids.now j 0) id) most_rules }
{
    let mut n = 0;
    for x in ids {
        n += u16::from(*x == id);
    }
    n
}

// No earlier rule has the id at i. The earlier ones are gone through only where some rule has it.
fn is_new(ids: &[u16; RULES], i: usize) -> bool
    requires { i < most_rules }
    ensures { result ≡ all_below (λ j. not (eqb (get_or ids.now j 0) (get_or ids.now i 0))) i }
{
    let id = ids[i];
    times(ids, id) <= 1 || !ids[..i].contains(&id)
}

// No mark stands at place n or beyond.
fn marks_good(n: usize, marks: u64) -> bool
    requires { n ≤ most_rules }
    ensures { result ≡ marks_good n marks }
{
    RULES <= n || (marks >> n) == 0
}

// A state's default has a code, and it marks no place without a rule.
fn state_good(t: &TableWords, rulecount: usize, k: usize) -> bool
    requires rules { rulecount ≤ most_rules }
    requires state { k < most_states }
    ensures { result ≡ state_good rulecount (table_in t.now).states k }
{
    action_good(default_of(t, k)) && marks_good(rulecount, marks_of(t, k))
}

// Each state that there is.
fn states_good(t: &TableWords, rulecount: usize, statecount: usize) -> bool
    requires { rulecount ≤ most_rules }
    ensures { result ≡ states_good rulecount statecount (table_in t.now).states }
{
    if statecount < 1 {
        return false;
    }
    if STATES < statecount {
        return false;
    }
    // No `all`: that k is a state there is, its closure would have to be told.
    for k in 0..statecount {
        if !state_good(t, rulecount, k) {
            return false;
        }
    }
    true
}

// Asks nothing: whatever the words say, they are some table.
pub fn first_fault(t: &TableWords) -> Result<(), AtFault>
    ensures { result ≡ fault_of (table_in t.now) }
{
    let count = rulecount(t);
    if RULES < count {
        return Err(AtFault::StatesOrRuleCount);
    }
    let ids = ids_of(t, count);
    for i in 0..count {
        if let Err(setting) = rule_fault(is_new(&ids, i), &t[i]) {
            return Err(AtFault::Rule { place: i, setting });
        }
    }
    if states_good(t, count, statecount(t)) {
        return Ok(());
    }
    Err(AtFault::StatesOrRuleCount)
}
