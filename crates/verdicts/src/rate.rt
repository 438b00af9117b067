// The bucket of the deciding rule, and the counts.
ghost use Rattle.std.specs.Prelude.{◌≡◌, ◌<◌, get_or, set};
ghost use Rattle.verdicts.specs.Record.{level_word, count_size};
ghost use Rattle.verdicts.specs.Rule.{raised, over, counted, settled_row};
ghost use Rattle.verdicts.specs.Verdict.{verdict_number};

use crate::verdict::Verdict;
use crate::*;
use table::Rate;

fn raise(b: Option<Rate>, level: u32) -> u32
    ensures { result ≡ raised b level }
{
    match b {
        None => level,
        Some(_) => level.saturating_add(FRAME).min(LEVEL_MOST),
    }
}

pub(crate) fn is_over(b: Option<Rate>, level: u32) -> bool
    ensures { result ≡ over b level }
{
    match b {
        None => false,
        Some(rate) => FRAME * u32::from(rate.size) < level,
    }
}

// One more, where the frame is of this count. Counts stop.
pub(crate) fn count(is: bool, n: u32) -> u32
    ensures { result ≡ counted is n }
{
    n.saturating_add(u32::from(is))
}

// The word of a socket's level.
fn level_at(second: bool) -> usize
    ensures word { result ≡ level_word second }
    ensures bound { result < count_size }
{
    if second { LEVEL1 } else { LEVEL0 }
}

// Step 3: the level of the frame's socket rises, whatever follows.
pub(crate) fn raise_level(b: Option<Rate>, second: bool, c: &mut CountWords) -> u32
    ensures level { result ≡ raised b (get_or c.old (level_word second) 0) }
    ensures words { c.new ≡ set c.old (level_word second) result }
{
    let k = level_at(second);
    let level = raise(b, c[k]);
    c[k] = level;
    level
}

// The decider's words after its verdict.
pub(crate) fn settle(v: Verdict, c: &mut CountWords)
    ensures { c.new ≡ settled_row (verdict_number v) c.old }
{
    let passes = v.passes();
    c[PASSED] = count(passes, c[PASSED]);
    c[BLOCKED] = count(!passes, c[BLOCKED]);
}
