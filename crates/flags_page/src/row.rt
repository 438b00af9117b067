// A line of the page, before it is text.
ghost use Rattle.std.specs.Prelude.{◌≡◌, ◌<◌};
ghost use Rattle.places.specs.Places.{place_of, places_of};
ghost use Rattle.flags_page.specs.Page.{places_with, phase_in, done_of, row_of};

use conversations::Turn;
use conversations::track::track;
use flags::{FlagKind, KINDS, Phase};
use places::place::{no_quad, phase_of, place_words, state};
use places::{PLACE_WORDS, PlaceWords, RulePlaces};
use table::{PLACES, Room};
use verdicts::verdict::Verdict;

// How many places a rule may have, as its setting says it; `ranges`, which has it too, is above no page.
const MOST_PLACES: u8 = PLACES as u8;

// What tracking does with the frame: the number of its verdict, as the page prints it (a number and no Verdict, as the definition done_by has it), and the state in which its conversation is held after it, if it is.
#[derive(Clone, Copy)]
pub struct Done {
    pub verdict: u8,
    pub state: Option<Phase>,
}

#[derive(Clone, Copy)]
pub struct Row {
    pub fin: bool,
    pub syn: bool,
    pub rst: bool,
    pub ack: bool,
    pub flags: Option<FlagKind>,
    pub nothing: Done,
    pub opening: Done,
    pub running: Done,
    pub closing: Done,
}

// The frame's conversation is held so before it, or not.
fn places_with(h: Option<Phase>) -> RulePlaces
    ensures { places_of result ≡ places_with h }
{
    let mut places = [[0; PLACE_WORDS]; PLACES];
    if let Some(f) = h {
        places[0] = place_words(no_quad(false), f, 0);
    }
    places
}

fn phase_in(p: &PlaceWords) -> Option<Phase>
    ensures { result ≡ phase_in (place_of p.now) }
{
    match state(p) {
        0 => None,
        n => Some(phase_of(n)),
    }
}

// A rule with as many places as there can be, all of them for each socket, tracks a frame of socket 0.
fn tracked(flags: Option<FlagKind>, h: Option<Phase>) -> Done
    ensures { result ≡ done_of flags h }
{
    let mut places = places_with(h);
    let room = Room {
        places: MOST_PLACES,
        limit: 1,
        number0: MOST_PLACES,
        number1: MOST_PLACES,
    };
    let turn = Turn {
        quad: no_quad(false),
        flags,
    };
    let verdict = Verdict::from(track(room, turn, &mut places));
    Done {
        verdict: verdict.number(),
        state: phase_in(&places[0]),
    }
}

// The entry n of the list: the flags are the binary digits of n.
pub(crate) fn row_at(n: usize) -> Row
    requires { n < 16 }
    ensures { result ≡ row_of n }
{
    let flags = KINDS[n];
    Row {
        fin: n / 8 % 2 == 1,
        syn: n / 4 % 2 == 1,
        rst: n / 2 % 2 == 1,
        ack: n % 2 == 1,
        flags,
        nothing: tracked(flags, None),
        opening: tracked(flags, Some(Phase::Opening)),
        running: tracked(flags, Some(Phase::Running)),
        closing: tracked(flags, Some(Phase::Closing)),
    }
}
