// Is the value of one setting within its range? Both sides of an `&` cost nothing here, and the compiler need not jump.
ghost use Rattle.std.specs.Prelude.{◌≡◌};
ghost use Rattle.table.specs.Settings.{within};
ghost use Rattle.table.specs.Table.{most_places};
ghost use Rattle.ranges.specs.Ranges.{from_to, up_to, length_good, known_action, known_kind, ports_good};

use table::*;

// How many places a rule may have, as its setting says it, and its longest idle limit, in ms.
pub(crate) const MOST_PLACES: u8 = PLACES as u8;

pub(crate) const MOST_LIMIT: u32 = 600000;

// Two, and not one over the type: the definition from_to is of numbers, and what a value of any type is as a number no bound says.
pub(crate) fn places_good(s: Setting<u8>) -> bool
    ensures { result ≡ within (from_to 1 most_places) s }
{
    s.is_unset_or(|v| (1 <= v) & (v <= MOST_PLACES))
}

pub(crate) fn limit_good(s: Setting<u32>) -> bool
    ensures { result ≡ within (from_to 1 600000) s }
{
    s.is_unset_or(|v| (1 <= v) & (v <= MOST_LIMIT))
}

// A number of places that is not above the places of the rule.
pub(crate) fn within_places(places: Setting<u8>, s: Setting<u8>) -> bool
    ensures { result ≡ within (up_to places) s }
{
    match (places, s) {
        (Setting::Set(p), Setting::Set(v)) => v <= p,
        _ => true,
    }
}

// A prefix of at most so many bits.
pub(crate) fn prefix_good<A: Copy>(s: Setting<Prefix<A>>, most: u8) -> bool
    ensures { result ≡ within (length_good most) s }
{
    s.is_unset_or(|p| p.length <= most)
}

// In order, and not without a kind.
pub(crate) fn ports_good(kind: Setting<Kind>, ports: Setting<Range>) -> bool
    ensures { result ≡ ports_good kind ports }
{
    ports.is_unset_or(|v| (v.low <= v.high) & !kind.is_unset())
}

pub fn action_good(a: Action) -> bool
    ensures { result ≡ known_action a }
{
    a != Action::Unknown
}

pub(crate) fn kind_good(s: Setting<Kind>) -> bool
    ensures { result ≡ within known_kind s }
{
    s.is_unset_or(|k| k != Kind::Unknown)
}
