// Does a layer match, and does a rule.
#![tactic(auto)]

mod agrees;
pub mod rules;
