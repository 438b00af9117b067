// Tracking: a frame's conversation in the places of the deciding rule.
ghost use Rattle.std.specs.Prelude.{◌≡◌, ◌<◌, ◌≤◌};
ghost use Rattle.places.specs.Places.{place_of, places_of, free, held_as};
ghost use Rattle.table.specs.Table.{most_places};
ghost use Rattle.conversations.specs.Tracking.{held_at, free_at, seat_of, moved, opened, begun, step_of, tracked_in, tracked_as};

use crate::scan::find;
use crate::*;
use flags::{FlagKind, Next, Phase, next_of};
use places::place::{no_quad, phase_of, place_words, state};
use places::sockets::held_by;
use places::{PLACE_WORDS, PlaceWords, Quad, RulePlaces};
use table::settings::number_of;
use table::{PLACES, Room};

// ---- finding

// The place that holds the quadruple, or PLACES; here and below the number of places says that there is none, as the definitions held_at, free_at and seat_of have it.
fn find_quad(q: Quad, ps: &RulePlaces) -> usize
    ensures { result ≡ held_at q (places_of ps.now) }
{
    find(q, ps).held
}

// The first free place of n, or n. It is found whatever the quadruple.
fn find_free(n: usize, ps: &RulePlaces) -> usize
    requires { n ≤ most_places }
    ensures { result ≡ free_at (places_of ps.now) n }
{
    find(no_quad(false), ps).free.min(n)
}

// ---- what a frame does to the places

fn hold(q: Quad, f: Phase, p: &mut PlaceWords)
    ensures { place_of p.new ≡ held_as q f }
{
    *p = place_words(q, f, 0);
}

fn release(p: &mut PlaceWords)
    ensures { place_of p.new ≡ free }
{
    *p = [0; PLACE_WORDS];
}

// The place that holds the conversation takes its step.
fn move_place(q: Quad, n: Next, i: usize, ps: &mut RulePlaces) -> Progress
    requires { i < most_places }
    ensures { tracked_as result ps.new ≡ moved q (places_of ps.old) i n }
{
    match n {
        Next::To(f) => {
            hold(q, f, &mut ps[i]);
            Progress::Holds
        }
        Next::Removed => {
            release(&mut ps[i]);
            Progress::Holds
        }
        Next::No => Progress::NotInState,
    }
}

// ---- a frame whose flags are a kind

// A conversation, and the room that its rule has.
#[derive(Clone, Copy)]
struct Sought {
    room: Room,
    quad: Quad,
    ghost eight: { room.places ≤ most_places },
}

impl Sought {
    // The place for a new conversation of the socket, or as many as there are: none for a socket at its number.
    fn seat(self, ps: &RulePlaces) -> usize
        ensures { result ≡ seat_of self.room self.quad.second (places_of ps.now) }
    {
        let n = usize::from(self.room.places);
        let second = self.quad.second;
        if held_by(second, ps) < number_of(self.room, second) {
            find_free(n, ps)
        } else {
            n
        }
    }

    // A new conversation takes its place.
    fn open(self, ps: &mut RulePlaces) -> Progress
        ensures { tracked_as result ps.new ≡ opened self.room self.quad (places_of ps.old) }
    {
        let i = self.seat(ps);
        if i < usize::from(self.room.places) {
            hold(self.quad, Phase::Opening, &mut ps[i]);
            Progress::Holds
        } else {
            Progress::NoPlaceFree
        }
    }

    // No such conversation is held: an open frame begins it.
    fn begin(self, k: FlagKind, ps: &mut RulePlaces) -> Progress
        ensures { tracked_as result ps.new ≡ begun self.room self.quad (places_of ps.old) k }
    {
        match k {
            FlagKind::Open => self.open(ps),
            FlagKind::Carry | FlagKind::End | FlagKind::Reset => Progress::NoConversation,
        }
    }

    // A step of the conversation that is held, or of none.
    #[tactic(auto, using(crate::proofs::TrackLaws::step_held, crate::proofs::TrackLaws::step_none))]
    fn step(self, k: FlagKind, ps: &mut RulePlaces) -> Progress
        ensures { tracked_as result ps.new ≡ step_of self.room self.quad (places_of ps.old) k }
    {
        let i = find_quad(self.quad, ps);
        if i < PLACES {
            let n = next_of(phase_of(state(&ps[i])), k);
            move_place(self.quad, n, i, ps)
        } else {
            self.begin(k, ps)
        }
    }
}

// The flags come first: wrong ones are told before a conversation is looked for.
// The room is asked to be of places that there can be, and no Room says so of itself: the definition tracking_of gives one for every rule, one at fault too.
pub fn track(m: Room, g: Turn, ps: &mut RulePlaces) -> Progress
    requires { m.places ≤ most_places }
    ensures { tracked_as result ps.new ≡ tracked_in m g.quad (places_of ps.old) g.flags }
{
    match g.flags {
        None => Progress::WrongFlags,
        Some(k) => {
            let sought = Sought {
                room: m,
                quad: g.quad,
            };
            sought.step(k, ps)
        }
    }
}
